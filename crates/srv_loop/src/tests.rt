use crate::{play, put_row, serve, session_line};
use cl_core::Server;
use rs_base::{Bytes, NoMemory, Words};
use rs_outside::{
    Calls, MemLog, MemSink, MemWire, OutRow, Status, SureLog, SureSink, Turn, Turns, What,
};
use std::alloc::Global;
use std::test::Fail;

// What a turn does, as a table has it.
#[derive(Clone, Copy)]
enum Does {
    Opened,
    Piece(&'static [u8]),
    Closed,
    Idle,
}

// Lines, and the clock, the word, the client and what is done where it is a session line.
type LineRow = (&'static [u8], Option<(u64, u64, u32, Does)>);

static LINE_ROWS: [LineRow; 36] = [
    (b"1000 0 1 opened\n", Some((1000, 0, 1, Does::Opened))),
    (
        b"0 18446744073709551615 0 opened\n",
        Some((0, u64::MAX, 0, Does::Opened)),
    ),
    (
        b"18446744073709551615 10 4294967295 closed\n",
        Some((u64::MAX, 10, u32::MAX, Does::Closed)),
    ),
    (b"7 8 0 closed\n", Some((7, 8, 0, Does::Closed))),
    (b"1 2 0 idle\n", Some((1, 2, 0, Does::Idle))),
    (
        b"1000 7 9 piece \\e\n",
        Some((1000, 7, 9, Does::Piece(b""))),
    ),
    (
        b"1000 7 9 piece *0\\r\\n*-1\\r\\n\n",
        Some((1000, 7, 9, Does::Piece(b"*0\r\n*-1\r\n"))),
    ),
    (
        b"1000 7 9 piece half\n",
        Some((1000, 7, 9, Does::Piece(b"half"))),
    ),
    (
        b"1000 7 9 piece \\s\\\\\\x00\\r\\n\n",
        Some((1000, 7, 9, Does::Piece(b" \\\x00\r\n"))),
    ),
    (
        b"1000 7 9 piece opened\n",
        Some((1000, 7, 9, Does::Piece(b"opened"))),
    ),
    (b"", None),
    (b"\n", None),
    (b"1 0 1 opened", None),
    (b"1 0 1 opened\r\n", None),
    (b"1 0 1 opened \n", None),
    (b" 1 0 1 opened\n", None),
    (b"1  0 1 opened\n", None),
    (b"1 0 1  opened\n", None),
    (b"1 0 1 Opened\n", None),
    (b"1 0 1 opened\n1 0 1 opened\n", None),
    (b"01 0 1 opened\n", None),
    (b"1 00 1 opened\n", None),
    (b"1 0 01 opened\n", None),
    (b"-1 0 1 opened\n", None),
    (b"18446744073709551616 0 1 opened\n", None),
    (b"1 18446744073709551616 1 opened\n", None),
    (b"1 0 4294967296 opened\n", None),
    (b"1 0 1 idle\n", None),
    (b"1 0 00 idle\n", None),
    (b"1 0 1 close\n", None),
    (b"1 0 1 piece\n", None),
    (b"1 0 1 piece \n", None),
    (b"1 0 1 piece \\x41\n", None),
    (b"1 0 1 piece a\\e\n", None),
    (b"1 0 1 piece a \n", None),
    (b"1 0 1\n", None),
];

fn what_of(alloc: Global, does: Does) -> Result<What, NoMemory> {
    Ok(match does {
        Does::Opened => What::Opened,
        Does::Piece(bytes) => What::Piece(Bytes::from_slice(alloc, bytes)?),
        Does::Closed => What::Closed,
        Does::Idle => What::Idle,
    })
}

fn turn_of(alloc: Global, said: Option<(u64, u64, u32, Does)>) -> Result<Option<Turn>, NoMemory> {
    let Some((clock, word, client, does)) = said else {
        return Ok(None);
    };
    let what = what_of(alloc, does)?;
    Ok(Some(Turn {
        clock,
        word,
        client,
        what,
    }))
}

// How many lines from the first on are read as told.
fn lines_read(alloc: Global, rows: &[LineRow]) -> Result<usize, NoMemory> {
    for (at, (line, want)) in rows.iter().enumerate() {
        if session_line(alloc, line)? != turn_of(alloc, *want)? {
            return Ok(at);
        }
    }
    Ok(rows.len())
}

// Whether a piece of so many bytes is read.
fn reads_piece_of(alloc: Global, length: usize) -> Result<bool, NoMemory> {
    let mut line = Bytes::from_slice(alloc, b"1 0 1 piece ")?;
    line.append(vec![in alloc; b'a'; length]?.as_slice())?;
    line.append(b"\n")?;
    Ok(session_line(alloc, line.as_slice())?.is_some())
}

#[test]
fn reads_session_lines(rt: HostRuntime) -> Result<(), Fail> {
    let alloc = rt.alloc();
    assert_eq!(rt; lines_read(alloc, &LINE_ROWS)?, LINE_ROWS.len());
    assert!(rt; reads_piece_of(alloc, 1_048_576)?);
    assert!(rt; !reads_piece_of(alloc, 1_048_577)?);
    Ok(())
}

// What is written to a client, or none where it is shut, and the row's text.
static OUT_ROWS: [(u32, Option<&[u8]>, &[u8]); 4] = [
    (1, Some(b"+OK\r\n"), b"1 send +OK\\r\\n\n"),
    (
        u32::MAX,
        Some(b"$3\r\n\\ \xff\r\n"),
        b"4294967295 send $3\\r\\n\\\\\\s\\xff\\r\\n\n",
    ),
    (0, Some(b""), b"0 send \\e\n"),
    (7, None, b"7 shut\n"),
];

fn row_of(alloc: Global, client: u32, sent: Option<&[u8]>) -> Result<OutRow, NoMemory> {
    Ok(match sent {
        Some(bytes) => OutRow::Sent(client, Bytes::from_slice(alloc, bytes)?),
        None => OutRow::Shut(client),
    })
}

// Writes a row, and then whether this is all that was written.
fn writes(
    alloc: Global,
    row: &(u32, Option<&[u8]>, &[u8]),
    all: &mut Bytes,
    want: &mut Bytes,
) -> Result<bool, NoMemory> {
    let out = row_of(alloc, row.0, row.1)?;
    put_row(&out, all)?;
    want.append(row.2)?;
    Ok(*all == *want)
}

// How many rows from the first on are written as told, each behind those before.
fn rows_written(alloc: Global, rows: &[(u32, Option<&[u8]>, &[u8])]) -> Result<usize, NoMemory> {
    let mut all = Bytes::new(alloc);
    let mut want = Bytes::new(alloc);
    for (at, row) in rows.iter().enumerate() {
        if !writes(alloc, row, &mut all, &mut want)? {
            return Ok(at);
        }
    }
    Ok(rows.len())
}

const SESSION: &[u8] =
    b"1000 0 1 opened\n1000 0 1 piece *3\\r\\n$3\\r\\nSET\\r\\n$1\\r\\nk\\r\\n$1\\r\\nv\\r\\n\n1001 0 2 opened\n1002 0 2 piece *2\\r\\n$3\\r\\nGET\\r\\n$1\\r\\nk\\r\\n\n1003 0 1 closed\n";

const LOGGED: &[u8] = b"*3\r\n$3\r\nSET\r\n$1\r\nk\r\n$1\r\nv\r\n";

const TRANSCRIPT: &[u8] =
    b"1 send +OK\\r\\n\n2 send $1\\r\\nv\\r\\n\nend turns=5 keys=1 log=27\nk string - v\n";

fn turns_of(alloc: Global, session: &[u8]) -> Result<Turns, NoMemory> {
    let mut turns = Turns::new(alloc);
    for line in session.split_inclusive(|byte| *byte == b'\n') {
        let Some(turn) = session_line(alloc, line)? else {
            return Ok(turns);
        };
        turns.push(turn)?;
    }
    Ok(turns)
}

fn failing_at(alloc: Global, call: Option<u64>) -> Result<Calls, NoMemory> {
    let mut calls = Calls::new(alloc);
    if let Some(call) = call {
        calls.push(call)?;
    }
    Ok(calls)
}

fn rows_told(alloc: Global, rows: &[OutRow]) -> Result<Bytes, NoMemory> {
    let mut text = Bytes::new(alloc);
    for row in rows {
        put_row(row, &mut text)?;
    }
    Ok(text)
}

// The call at which the wire fails, the most turns that are taken, the status, how often a turn was asked for, and then
// what was sent and what was logged.
type ServeRow = (
    Option<u64>,
    u64,
    Status,
    u64,
    (&'static [u8], &'static [u8]),
);

const NOTHING: (&[u8], &[u8]) = (b"", b"");

const ONE: (&[u8], &[u8]) = (b"1 send +OK\\r\\n\n", LOGGED);

const BOTH: (&[u8], &[u8]) = (b"1 send +OK\\r\\n\n2 send $1\\r\\nv\\r\\n\n", LOGGED);

// Where the wire fails nothing of the turns before is missing.
static SERVE_ROWS: [ServeRow; 12] = [
    (None, 0, Status::TurnsSpent { turns: 0 }, 0, NOTHING),
    (None, 1, Status::TurnsSpent { turns: 1 }, 1, NOTHING),
    (None, 3, Status::TurnsSpent { turns: 3 }, 3, ONE),
    (None, 5, Status::TurnsSpent { turns: 5 }, 5, BOTH),
    (None, 6, Status::Done, 6, BOTH),
    (None, u64::MAX, Status::Done, 6, BOTH),
    (Some(0), 9, Status::WireFault, 1, NOTHING),
    (Some(1), 9, Status::WireFault, 2, NOTHING),
    (Some(2), 9, Status::WireFault, 3, ONE),
    (Some(3), 9, Status::WireFault, 4, ONE),
    (Some(4), 9, Status::WireFault, 5, BOTH),
    (Some(5), 9, Status::WireFault, 6, BOTH),
];

// Whether this is what was served.
fn is_told(
    alloc: Global,
    status: Status,
    wire: &MemWire,
    log: &SureLog,
    row: &ServeRow,
) -> Result<bool, NoMemory> {
    let sent = rows_told(alloc, wire.sent().as_slice())?;
    Ok(
        status == row.2
            && wire.calls() == row.3
            && sent.as_slice() == row.4.0
            && log.taken().as_slice() == row.4.1
            && log.begun().is_empty(),
    )
}

fn serves(alloc: Global, session: &[u8], row: &ServeRow) -> Result<bool, NoMemory> {
    let failing = failing_at(alloc, row.0)?;
    let turns = turns_of(alloc, session)?;
    let mut wire = MemWire::new(alloc, turns, failing);
    let mut server = Server::new(alloc);
    let mut log = SureLog::new(alloc);
    let status = serve(alloc, &mut server, &mut wire, &mut log, row.1);
    is_told(alloc, status, &wire, &log, row)
}

// How many rows from the first on are served as told.
fn served(alloc: Global, session: &[u8], rows: &[ServeRow]) -> Result<usize, NoMemory> {
    for (at, row) in rows.iter().enumerate() {
        if !serves(alloc, session, row)? {
            return Ok(at);
        }
    }
    Ok(rows.len())
}

// Whether a turn's reply is not sent where the log fails.
fn keeps_the_reply(alloc: Global, session: &[u8]) -> Result<bool, NoMemory> {
    let mut server = Server::new(alloc);
    let mut wire = MemWire::new(alloc, turns_of(alloc, session)?, Calls::new(alloc));
    let mut log = MemLog::new(alloc, failing_at(alloc, Some(0))?);
    let status = serve(alloc, &mut server, &mut wire, &mut log, 9);
    Ok(status == Status::LogFault && wire.sent().is_empty() && log.taken().is_empty())
}

#[test]
fn serves_turns(rt: HostRuntime) -> Result<(), Fail> {
    let alloc = rt.alloc();
    assert_eq!(rt; rows_written(alloc, &OUT_ROWS)?, OUT_ROWS.len());
    assert_eq!(rt; served(alloc, SESSION, &SERVE_ROWS)?, SERVE_ROWS.len());
    assert!(rt; keeps_the_reply(alloc, SESSION)?);
    Ok(())
}

// A session, the call at which the output fails and that at which the log does, and then the status, how often the
// output and the log were called, what each took, and whether the log was begun.
type PlayRow = (
    &'static [u8],
    Option<u64>,
    Option<u64>,
    Status,
    (u64, u64),
    (&'static [u8], &'static [u8], bool),
);

// The log is begun only behind the last good line; what failed is not called again.
static PLAY_ROWS: [PlayRow; 10] = [
    (
        SESSION,
        None,
        None,
        Status::Done,
        (2, 2),
        (TRANSCRIPT, LOGGED, true),
    ),
    (
        SESSION,
        None,
        Some(0),
        Status::LogFault,
        (0, 1),
        (b"", b"", false),
    ),
    (
        SESSION,
        None,
        Some(1),
        Status::LogFault,
        (0, 2),
        (b"", b"", true),
    ),
    (
        SESSION,
        Some(0),
        None,
        Status::SinkFault,
        (1, 2),
        (b"", LOGGED, true),
    ),
    (
        SESSION,
        Some(1),
        None,
        Status::SinkFault,
        (2, 2),
        (b"1 send +OK\\r\\n\n2 send $1\\r\\nv\\r\\n\n", LOGGED, true),
    ),
    (
        b"",
        None,
        None,
        Status::Done,
        (1, 1),
        (b"end turns=0 keys=0 log=0\n", b"", true),
    ),
    (
        b"\n",
        None,
        None,
        Status::BadInput { line: 1 },
        (0, 0),
        (b"", b"", false),
    ),
    (
        b"1000 0 1 opened\n1001 0 2 idle\n1002 0 3 opened\n",
        None,
        None,
        Status::BadInput { line: 2 },
        (0, 0),
        (b"", b"", false),
    ),
    (
        b"1000 0 1 opened\n5 0 1 piece \\x41\n",
        None,
        None,
        Status::BadInput { line: 2 },
        (0, 0),
        (b"", b"", false),
    ),
    (
        b"1000 0 1 opened\n1000 0 1 piece *3\\r\\n$3\\r\\nSET\\r\\n$1\\r\\nk\\r\\n$1\\r\\nv\\r\\n\n1001 0 1 opened",
        None,
        None,
        Status::BadInput { line: 3 },
        (0, 0),
        (b"", b"", false),
    ),
];

// The names under which a log was begun: one, or none.
fn names(alloc: Global, is_begun: bool) -> Result<Words, NoMemory> {
    let mut names = Words::new(alloc);
    if is_begun {
        names.push(Bytes::from_slice(alloc, b"x.log")?)?;
    }
    Ok(names)
}

// Whether this is what was played, with the log begun under these names.
fn is_played(status: Status, out: &MemSink, log: &MemLog, row: &PlayRow, names: &Words) -> bool {
    status == row.3
        && out.calls() == row.4.0
        && log.calls() == row.4.1
        && out.taken().as_slice() == row.5.0
        && log.taken().as_slice() == row.5.1
        && log.begun() == names
}

// The same of an output and a log that never fail.
fn is_surely_played(
    status: Status,
    out: &SureSink,
    log: &SureLog,
    row: &PlayRow,
    names: &Words,
) -> bool {
    status == row.3
        && out.taken().as_slice() == row.5.0
        && log.taken().as_slice() == row.5.1
        && log.begun() == names
}

fn plays(alloc: Global, row: &PlayRow) -> Result<bool, NoMemory> {
    let session = Bytes::from_slice(alloc, row.0)?;
    let out_calls = failing_at(alloc, row.1)?;
    let log_calls = failing_at(alloc, row.2)?;
    let names = names(alloc, row.5.2)?;
    let mut out = MemSink::new(alloc, out_calls);
    let mut log = MemLog::new(alloc, log_calls);
    let status = play(alloc, &session, b"x.log", &mut out, &mut log);
    Ok(is_played(status, &out, &log, row, &names))
}

// Whether a session is played over an output and a log that never fail.
fn plays_surely(alloc: Global, row: &PlayRow) -> Result<bool, NoMemory> {
    let session = Bytes::from_slice(alloc, row.0)?;
    let names = names(alloc, row.5.2)?;
    let mut out = SureSink::new(alloc);
    let mut log = SureLog::new(alloc);
    let status = play(alloc, &session, b"x.log", &mut out, &mut log);
    Ok(is_surely_played(status, &out, &log, row, &names))
}

// How many rows from the first on are played as told.
fn played(alloc: Global, rows: &[PlayRow]) -> Result<usize, NoMemory> {
    for (at, row) in rows.iter().enumerate() {
        if !plays(alloc, row)? {
            return Ok(at);
        }
    }
    Ok(rows.len())
}

// A session of SETs of `k` to as many of one letter each. Two of them are a batch, and so they are written before the
// third is taken.
const LETTERS: &[u8] = b"abc";

const LONG: usize = 40_000;

const LONG_END: &[u8] = b"end turns=4 keys=1 log=120090\nk string - ";

static SET_LONG: [&[u8]; 6] = [b"*3", b"$3", b"SET", b"$1", b"k", b"$40000"];

// The frame of a SET, with this for each end of a line.
fn put_long_set(
    alloc: Global,
    letter: u8,
    line_end: &[u8],
    out: &mut Bytes,
) -> Result<(), NoMemory> {
    for line in &SET_LONG {
        out.append(line)?;
        out.append(line_end)?;
    }
    out.append(vec![in alloc; letter; LONG]?.as_slice())?;
    out.append(line_end)
}

fn long_session(alloc: Global) -> Result<Bytes, NoMemory> {
    let mut session = Bytes::from_slice(alloc, b"1 0 1 opened\n")?;
    for letter in LETTERS {
        session.append(b"1 0 1 piece ")?;
        put_long_set(alloc, *letter, b"\\r\\n", &mut session)?;
        session.append(b"\n")?;
    }
    Ok(session)
}

// What so many SETs log.
fn long_log(alloc: Global, sets: usize) -> Result<Bytes, NoMemory> {
    let mut log = Bytes::new(alloc);
    for letter in LETTERS.iter().take(sets) {
        put_long_set(alloc, *letter, b"\r\n", &mut log)?;
    }
    Ok(log)
}

// The lines of so many SETs, and the ending where it is written.
fn long_lines(alloc: Global, sets: usize, is_ended: bool) -> Result<Bytes, NoMemory> {
    let mut lines = Bytes::new(alloc);
    for _ in 0..sets {
        lines.append(b"1 send +OK\\r\\n\n")?;
    }
    if is_ended {
        lines.append(LONG_END)?;
        lines.append(vec![in alloc; b'c'; LONG]?.as_slice())?;
        lines.append(b"\n")?;
    }
    Ok(lines)
}

// The call at which the output fails and that at which the log does, and then the status, how often the output and
// the log were called, and of how many SETs the output took the lines and the log the bytes.
type BatchRow = (Option<u64>, Option<u64>, Status, (u64, u64), (usize, usize));

// Lines are only of SETs whose batch the log has whole.
static BATCH_ROWS: [BatchRow; 6] = [
    (None, None, Status::Done, (3, 3), (3, 3)),
    (None, Some(1), Status::LogFault, (0, 2), (0, 0)),
    (Some(0), None, Status::SinkFault, (1, 2), (0, 2)),
    (None, Some(2), Status::LogFault, (1, 3), (2, 2)),
    (Some(1), None, Status::SinkFault, (2, 3), (2, 3)),
    (Some(2), None, Status::SinkFault, (3, 3), (3, 3)),
];

fn plays_batches(alloc: Global, session: &Bytes, row: &BatchRow) -> Result<bool, NoMemory> {
    let mut out = MemSink::new(alloc, failing_at(alloc, row.0)?);
    let mut log = MemLog::new(alloc, failing_at(alloc, row.1)?);
    let status = play(alloc, session, b"x.log", &mut out, &mut log);
    let lines = long_lines(alloc, row.4.0, row.2 == Status::Done)?;
    let logged = long_log(alloc, row.4.1)?;
    Ok(
        status == row.2
            && out.calls() == row.3.0
            && log.calls() == row.3.1
            && *out.taken() == lines
            && *log.taken() == logged,
    )
}

// How many rows from the first on are played as told.
fn batches_played(alloc: Global, rows: &[BatchRow]) -> Result<usize, NoMemory> {
    let session = long_session(alloc)?;
    for (at, row) in rows.iter().enumerate() {
        if !plays_batches(alloc, &session, row)? {
            return Ok(at);
        }
    }
    Ok(rows.len())
}

#[test]
fn plays_sessions(rt: HostRuntime) -> Result<(), Fail> {
    let alloc = rt.alloc();
    assert_eq!(rt; played(alloc, &PLAY_ROWS)?, PLAY_ROWS.len());
    assert!(rt; plays_surely(alloc, &PLAY_ROWS[0])?);
    assert_eq!(rt; batches_played(alloc, &BATCH_ROWS)?, BATCH_ROWS.len());
    Ok(())
}
