use crate::Server;
use fx_log::{Effects, Groups};
use rs_base::{Bytes, NoMemory, Words, write_decimal};
use rs_outside::{OutRow, Outs, Turn, What};
use std::alloc::Global;
use std::test::Fail;

// The words of a text, between its spaces.
fn words_of(alloc: Global, text: &[u8]) -> Result<Words, NoMemory> {
    let mut words = Words::new(alloc);
    for word in text.split(|byte| *byte == b' ') {
        words.push(Bytes::from_slice(alloc, word)?)?;
    }
    Ok(words)
}

fn write_word(word: &[u8], out: &mut Bytes) -> Result<(), NoMemory> {
    out.push(b'$')?;
    write_decimal(word.len() as u64, out)?;
    out.append(b"\r\n")?;
    out.append(word)?;
    out.append(b"\r\n")
}

// The frame of a command.
fn frame(alloc: Global, words: &Words) -> Result<Bytes, NoMemory> {
    let mut out = Bytes::from_slice(alloc, b"*")?;
    write_decimal(words.len() as u64, &mut out)?;
    out.append(b"\r\n")?;
    for word in words.as_slice() {
        write_word(word.as_slice(), &mut out)?;
    }
    Ok(out)
}

fn take(
    server: &mut Server,
    clock: u64,
    what: What,
    outs: &mut Outs,
    groups: &mut Groups,
) -> Result<(), NoMemory> {
    let turn = Turn {
        clock,
        word: 0,
        client: 1,
        what,
    };
    server.turn(&turn, outs, groups)?;
    Ok(())
}

// The bytes that are sent.
fn sent(alloc: Global, outs: &Outs) -> Result<Bytes, NoMemory> {
    let mut out = Bytes::new(alloc);
    for row in outs.as_slice() {
        if let OutRow::Sent(_, bytes) = row {
            out.append(bytes.as_slice())?;
        }
    }
    Ok(out)
}

fn tell_words(words: &Words, out: &mut Bytes) -> Result<(), NoMemory> {
    for word in words.as_slice() {
        out.append(word.as_slice())?;
        out.push(b' ')?;
    }
    out.push(b';')
}

fn tell_records(alloc: Global, records: &Effects, out: &mut Bytes) -> Result<(), NoMemory> {
    for record in records.as_slice() {
        let words = record.to_words(alloc)?;
        tell_words(&words, out)?;
    }
    Ok(())
}

// The records of groups: their words, each before a space, and each record before a `;`, and behind those of a group
// a `*` where it is wrapped, and else a `|`.
fn logged(alloc: Global, groups: &Groups) -> Result<Bytes, NoMemory> {
    let mut out = Bytes::new(alloc);
    for group in groups.as_slice() {
        tell_records(alloc, &group.records, &mut out)?;
        out.push(if group.wrapped { b'*' } else { b'|' })?;
    }
    Ok(out)
}

// Whether a client that asks this is sent this reply, and this is logged.
fn answers(
    alloc: Global,
    server: &mut Server,
    clock: u64,
    words: &Words,
    reply: &[u8],
    records: &[u8],
) -> Result<bool, NoMemory> {
    let mut outs = Outs::new(alloc);
    let mut groups = Groups::new(alloc);
    take(server, clock, What::Opened, &mut outs, &mut groups)?;
    let piece = frame(alloc, words)?;
    take(server, clock, What::Piece(piece), &mut outs, &mut groups)?;
    let sent = sent(alloc, &outs)?;
    let logged = logged(alloc, &groups)?;
    Ok(sent.as_slice() == reply && logged.as_slice() == records)
}

// The clock, a command's words between spaces, its reply, and what is logged.
type Row = (u64, &'static [u8], &'static [u8], &'static [u8]);

// Commands one behind the other.
static COMMANDS: [Row; 22] = [
    (1000, b"PING", b"+PONG\r\n", b""),
    (1000, b"SET k v PX 10", b"+OK\r\n", b"SET k v PXAT 1010 ;|"),
    (1000, b"SET k v PX 10", b"+OK\r\n", b""),
    (1010, b"PTTL k", b":0\r\n", b""),
    (1010, b"get k", b"$1\r\nv\r\n", b""),
    (1011, b"GET k", b"$-1\r\n", b"DEL k ;|"),
    (900, b"TIME", b"*2\r\n$1\r\n1\r\n$5\r\n11000\r\n", b""),
    (900, b"SET k w PX 1", b"+OK\r\n", b"SET k w PXAT 1012 ;|"),
    (
        1012,
        b"SET b 1 PXAT 1020",
        b"+OK\r\n",
        b"SET b 1 PXAT 1020 ;|",
    ),
    (
        1013,
        b"SET a 2 PXAT 1020",
        b"+OK\r\n",
        b"DEL k ;|SET a 2 PXAT 1020 ;|",
    ),
    (
        1013,
        b"SET c 3 PXAT 1019",
        b"+OK\r\n",
        b"SET c 3 PXAT 1019 ;|",
    ),
    (1013, b"SET d 4", b"+OK\r\n", b"SET d 4 ;|"),
    (
        2000,
        b"SET a 5",
        b"+OK\r\n",
        b"DEL c ;|DEL a ;|DEL b ;|SET a 5 ;|",
    ),
    (2000, b"DEL d e a d", b":2\r\n", b"DEL d ;DEL a ;*"),
    (2000, b"QUIT", b"+OK\r\n", b""),
    (2000, b"quit", b"+OK\r\n", b""),
    (
        2000,
        b"QUIT now",
        b"-ERR wrong number of arguments for 'quit' command\r\n",
        b"",
    ),
    (
        2000,
        b"PING a b",
        b"-ERR wrong number of arguments for 'ping' command\r\n",
        b"",
    ),
    (2000, b"SET k x NX XX", b"-ERR syntax error\r\n", b""),
    (
        2000,
        b"NoSuch a b",
        b"-ERR unknown command 'NoSuch'\r\n",
        b"",
    ),
    (2000, b"", b"-ERR unknown command ''\r\n", b""),
    (2000, b"TIME", b"*2\r\n$1\r\n2\r\n$1\r\n0\r\n", b""),
];

// How many commands from the first on are answered as told.
fn agreeing(alloc: Global, server: &mut Server, rows: &[Row]) -> Result<usize, NoMemory> {
    for (at, (clock, text, reply, records)) in rows.iter().enumerate() {
        let words = words_of(alloc, text)?;
        if !answers(alloc, server, *clock, &words, reply, records)? {
            return Ok(at);
        }
    }
    Ok(rows.len())
}

#[test]
fn answers_commands(rt: HostRuntime) -> Result<(), Fail> {
    let mut server = Server::new(rt.alloc());
    assert_eq!(rt;
        agreeing(rt.alloc(), &mut server, &COMMANDS)?,
        COMMANDS.len()
    );
    assert_eq!(rt; server.space().len(), 0);
    Ok(())
}
