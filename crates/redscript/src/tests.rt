use crate::command_line::{Lone, lone_word};
use crate::running::run;
use rs_base::{Bytes, NoMemory, Words, escape, write_decimal};
use rs_outside::{Calls, MemLog, MemSink, MemSource, Status, SureWire, Turns};
use std::alloc::Global;
use std::test::Fail;

fn line_of(alloc: Global, words: &[&[u8]]) -> Result<Words, NoMemory> {
    let mut line = Words::new(alloc);
    for word in words {
        line.push(Bytes::from_slice(alloc, word)?)?;
    }
    Ok(line)
}

const LONE_ROWS: [(&[&[u8]], Option<Lone>); 4] = [
    (&[], None),
    (&[b"--help"], Some(Lone::Help)),
    (&[b"--version"], Some(Lone::Version)),
    (&[b"--help", b"--version"], None),
];

// How many command lines from the first on are told as lone words.
fn lone_words(alloc: Global, rows: &[(&[&[u8]], Option<Lone>)]) -> Result<usize, NoMemory> {
    for (at, (words, want)) in rows.iter().enumerate() {
        if lone_word(&line_of(alloc, words)?) != *want {
            return Ok(at);
        }
    }
    Ok(rows.len())
}

// The calls at which the input, the output and the log fail.
type Failing = (Option<u64>, Option<u64>, Option<u64>);

const SURE: Failing = (None, None, None);

// What a run leaves: its status, what the output and the log took, and whether the log was begun, under the name
// `x.log`.
type Left = (Status, &'static [u8], &'static [u8], bool);

fn calls(alloc: Global, failing: Option<u64>) -> Result<Calls, NoMemory> {
    let mut calls = Calls::new(alloc);
    if let Some(call) = failing {
        calls.push(call)?;
    }
    Ok(calls)
}

fn names(alloc: Global, is_begun: bool) -> Result<Words, NoMemory> {
    let mut names = Words::new(alloc);
    if is_begun {
        names.push(Bytes::from_slice(alloc, b"x.log")?)?;
    }
    Ok(names)
}

// Whether a read that failed was the last.
fn is_last(calls: u64, failing: Option<u64>) -> bool {
    match failing {
        Some(call) => calls == call.saturating_add(1),
        None => true,
    }
}

// Whether the program, with this input, leaves what is told.
fn leaves(
    alloc: Global,
    words: &[&[u8]],
    text: &[u8],
    failing: Failing,
    left: Left,
) -> Result<bool, NoMemory> {
    let line = line_of(alloc, words)?;
    let text = Bytes::from_slice(alloc, text)?;
    let mut wire = SureWire::new(alloc, Turns::new(alloc));
    let mut input = MemSource::new(text, calls(alloc, failing.0)?);
    let mut out = MemSink::new(alloc, calls(alloc, failing.1)?);
    let mut log = MemLog::new(alloc, calls(alloc, failing.2)?);
    let status = run(alloc, &line, &mut wire, &mut input, &mut out, &mut log);
    Ok(
        status == left.0
            && out.taken().as_slice() == left.1
            && log.taken().as_slice() == left.2
            && *log.begun() == names(alloc, left.3)?
            && is_last(input.calls(), failing.0),
    )
}

const PLAY: &[&[u8]] = &[b"play", b"x.log"];

const REPLAY: &[&[u8]] = &[b"replay"];

const SESSION: &[u8] =
    b"1000 0 1 opened\n1000 0 1 piece *3\\r\\n$3\\r\\nSET\\r\\n$1\\r\\nk\\r\\n$1\\r\\nv\\r\\n*2\\r\\n$3\\r\\nGET\\r\\n$1\\r\\nk\\r\\n\n";

const LOGGED: &[u8] = b"*3\r\n$3\r\nSET\r\n$1\r\nk\r\n$1\r\nv\r\n";

// SET b 1, SET a 2, SET c with an empty value, DEL b.
const FOUR_RECORDS: &[u8] =
    b"*3\r\n$3\r\nSET\r\n$1\r\nb\r\n$1\r\n1\r\n*3\r\n$3\r\nSET\r\n$1\r\na\r\n$1\r\n2\r\n*3\r\n$3\r\nSET\r\n$1\r\nc\r\n$0\r\n\r\n*2\r\n$3\r\nDEL\r\n$1\r\nb\r\n";

// MULTI, SET a 1, SET b 2, EXEC.
const GROUP: &[u8] =
    b"*1\r\n$5\r\nMULTI\r\n*3\r\n$3\r\nSET\r\n$1\r\na\r\n$1\r\n1\r\n*3\r\n$3\r\nSET\r\n$1\r\nb\r\n$1\r\n2\r\n*1\r\n$4\r\nEXEC\r\n";

// The words, the input, where what fails, and what is left.
type Row = (&'static [&'static [u8]], &'static [u8], Failing, Left);

const PLAY_ROWS: [Row; 8] = [
    (
        PLAY,
        b"",
        SURE,
        (Status::Done, b"end turns=0 keys=0 log=0\n", b"", true),
    ),
    (
        PLAY,
        SESSION,
        SURE,
        (
            Status::Done,
            b"1 send +OK\\r\\n\n1 send $1\\r\\nv\\r\\n\nend turns=2 keys=1 log=27\nk string - v\n",
            LOGGED,
            true,
        ),
    ),
    // A value that is there already is set again without a record, and a key that is not there is null.
    (
        PLAY,
        b"5 1 1 opened\n5 2 1 piece *3\\r\\n$3\\r\\nset\\r\\n$1\\r\\nk\\r\\n$1\\r\\nv\\r\\n\n6 3 1 piece *3\\r\\n$3\\r\\nSET\\r\\n$1\\r\\nk\\r\\n$1\\r\\nv\\r\\n*2\\r\\n$3\\r\\nGet\\r\\n$2\\r\\nno\\r\\n\n",
        SURE,
        (
            Status::Done,
            b"1 send +OK\\r\\n\n1 send +OK\\r\\n\n1 send $-1\\r\\n\nend turns=3 keys=1 log=27\nk string - v\n",
            LOGGED,
            true,
        ),
    ),
    // Commands are taken in the order in which they become whole, not in that of their first bytes.
    (
        PLAY,
        b"1000 0 1 opened\n1000 0 2 opened\n1000 0 1 piece *3\\r\\n$3\\r\\nSET\\r\\n$1\\r\\nk\\r\\n$3\\r\\non\n1000 0 2 piece *3\\r\\n$3\\r\\nSET\\r\\n$1\\r\\nk\\r\\n$3\\r\\ntw\n1000 0 2 piece o\\r\\n\n1000 0 1 piece e\\r\\n\n",
        SURE,
        (
            Status::Done,
            b"2 send +OK\\r\\n\n1 send +OK\\r\\n\nend turns=6 keys=1 log=58\nk string - one\n",
            b"*3\r\n$3\r\nSET\r\n$1\r\nk\r\n$3\r\ntwo\r\n*3\r\n$3\r\nSET\r\n$1\r\nk\r\n$3\r\none\r\n",
            true,
        ),
    ),
    // Empty and negative arrays get no reply; a bad frame gets its fault, and the client is shut.
    (
        PLAY,
        b"1000 0 1 opened\n1000 0 1 piece *0\\r\\n*-1\\r\\n*1\\r\\n$-1\\r\\n\n1000 0 1 piece *1\\r\\n$4\\r\\nPING\\r\\n\n",
        SURE,
        (
            Status::Done,
            b"1 send -ERR\\sProtocol\\serror:\\sinvalid\\sbulk\\slength\\r\\n\n1 shut\nend turns=3 keys=0 log=0\n",
            b"",
            true,
        ),
    ),
    // Three keys, two of which are there: one group of two records.
    (
        PLAY,
        b"1 0 1 opened\n1 0 1 piece *3\\r\\n$3\\r\\nSET\\r\\n$1\\r\\na\\r\\n$1\\r\\n1\\r\\n*3\\r\\n$3\\r\\nSET\\r\\n$1\\r\\nb\\r\\n$1\\r\\n2\\r\\n*4\\r\\n$3\\r\\nDEL\\r\\n$1\\r\\na\\r\\n$1\\r\\nc\\r\\n$1\\r\\nb\\r\\n\n",
        SURE,
        (
            Status::Done,
            b"1 send +OK\\r\\n\n1 send +OK\\r\\n\n1 send :2\\r\\n\nend turns=2 keys=0 log=123\n",
            b"*3\r\n$3\r\nSET\r\n$1\r\na\r\n$1\r\n1\r\n*3\r\n$3\r\nSET\r\n$1\r\nb\r\n$1\r\n2\r\n*1\r\n$5\r\nMULTI\r\n*2\r\n$3\r\nDEL\r\n$1\r\na\r\n*2\r\n$3\r\nDEL\r\n$1\r\nb\r\n*1\r\n$4\r\nEXEC\r\n",
            true,
        ),
    ),
    // Nothing is answered behind a QUIT, and a client that is not open is not heard.
    (
        PLAY,
        b"1 0 7 piece *1\\r\\n$4\\r\\nPING\\r\\n\n1 0 7 opened\n1 0 7 piece *1\\r\\n$4\\r\\nPING\\r\\n*1\\r\\n$4\\r\\nquit\\r\\n*1\\r\\n$4\\r\\nPING\\r\\n!\n1 0 7 piece *1\\r\\n$4\\r\\nPING\\r\\n\n2 0 0 idle\n",
        SURE,
        (
            Status::Done,
            b"7 send +PONG\\r\\n\n7 send +OK\\r\\n\n7 shut\nend turns=5 keys=0 log=0\n",
            b"",
            true,
        ),
    ),
    // Three keys, one of them with an empty value; then one of them and one that is not there are deleted.
    (
        PLAY,
        b"1 0 1 opened\n1 0 1 piece *3\\r\\n$3\\r\\nSET\\r\\n$1\\r\\nb\\r\\n$1\\r\\n1\\r\\n*3\\r\\n$3\\r\\nSET\\r\\n$1\\r\\na\\r\\n$1\\r\\n2\\r\\n*3\\r\\n$3\\r\\nSET\\r\\n$1\\r\\nc\\r\\n$0\\r\\n\\r\\n*3\\r\\n$3\\r\\nDEL\\r\\n$1\\r\\nb\\r\\n$1\\r\\nd\\r\\n\n",
        SURE,
        (
            Status::Done,
            b"1 send +OK\\r\\n\n1 send +OK\\r\\n\n1 send +OK\\r\\n\n1 send :1\\r\\n\nend turns=2 keys=2 log=100\na string - 2\nc string - \\e\n",
            FOUR_RECORDS,
            true,
        ),
    ),
];

// What was played above is replayed to the same store.
const REPLAY_ROWS: [Row; 4] = [
    (
        REPLAY,
        b"",
        SURE,
        (Status::Done, b"end groups=0 keys=0\n", b"", false),
    ),
    (
        REPLAY,
        LOGGED,
        SURE,
        (
            Status::Done,
            b"end groups=1 keys=1\nk string - v\n",
            b"",
            false,
        ),
    ),
    (
        REPLAY,
        FOUR_RECORDS,
        SURE,
        (
            Status::Done,
            b"end groups=4 keys=2\na string - 2\nc string - \\e\n",
            b"",
            false,
        ),
    ),
    (
        REPLAY,
        GROUP,
        SURE,
        (
            Status::Done,
            b"end groups=1 keys=2\na string - 1\nb string - 2\n",
            b"",
            false,
        ),
    ),
];

// What is refused: nothing was written, and no log begun.
const REFUSED_ROWS: [Row; 17] = [
    (
        PLAY,
        b"1000 0 1 opened\n5 0 1 piece \\x41\n",
        SURE,
        (Status::BadInput { line: 2 }, b"", b"", false),
    ),
    (
        PLAY,
        b"1000 0 1 opened\n1001 0 2 idle\n",
        SURE,
        (Status::BadInput { line: 2 }, b"", b"", false),
    ),
    (
        PLAY,
        b"1000 0 1 opened",
        SURE,
        (Status::BadInput { line: 1 }, b"", b"", false),
    ),
    (
        PLAY,
        b"\n",
        SURE,
        (Status::BadInput { line: 1 }, b"", b"", false),
    ),
    (&[], SESSION, SURE, (Status::Usage, b"", b"", false)),
    (&[b"play"], SESSION, SURE, (Status::Usage, b"", b"", false)),
    (
        &[b"play", b""],
        SESSION,
        SURE,
        (Status::Usage, b"", b"", false),
    ),
    (
        &[b"PLAY", b"x"],
        SESSION,
        SURE,
        (Status::Usage, b"", b"", false),
    ),
    (
        &[b"bench", b"5"],
        SESSION,
        SURE,
        (Status::Usage, b"", b"", false),
    ),
    (
        &[b"play", b"x", b"y"],
        SESSION,
        SURE,
        (Status::Usage, b"", b"", false),
    ),
    (
        &[b"replay", b"x"],
        LOGGED,
        SURE,
        (Status::Usage, b"", b"", false),
    ),
    (&[b"Replay"], LOGGED, SURE, (Status::Usage, b"", b"", false)),
    (
        REPLAY,
        b"*1\r\n$5\r\nMULTI\r\n+3\r\n$3\r\nSET\r\n$1\r\na\r\n$1\r\n1\r\n*3\r\n$3\r\nSET\r\n$1\r\nb\r\n$1\r\n2\r\n*1\r\n$4\r\nEXEC\r\n",
        SURE,
        (Status::BadLog { place: 15 }, b"", b"", false),
    ),
    // EXEC where no group is open, and MULTI where one is.
    (
        REPLAY,
        b"*1\r\n$4\r\nEXEC\r\n",
        SURE,
        (Status::BadLog { place: 0 }, b"", b"", false),
    ),
    (
        REPLAY,
        b"*1\r\n$5\r\nMULTI\r\n*1\r\n$5\r\nMULTI\r\n",
        SURE,
        (Status::BadLog { place: 15 }, b"", b"", false),
    ),
    // No record, behind an empty array.
    (
        REPLAY,
        b"*0\r\n*1\r\n$4\r\nPING\r\n",
        SURE,
        (Status::BadLog { place: 4 }, b"", b"", false),
    ),
    // A whole group does not help a bad byte behind it.
    (
        REPLAY,
        b"*2\r\n$3\r\nDEL\r\n$1\r\nk\r\n!",
        SURE,
        (Status::BadLog { place: 20 }, b"", b"", false),
    ),
];

// What fails is named; what a form does not need is not asked.
const FAULT_ROWS: [Row; 7] = [
    (
        PLAY,
        SESSION,
        (Some(0), None, None),
        (Status::SourceFault, b"", b"", false),
    ),
    (
        PLAY,
        SESSION,
        (None, Some(0), None),
        (Status::SinkFault, b"", LOGGED, true),
    ),
    (
        PLAY,
        SESSION,
        (None, None, Some(0)),
        (Status::LogFault, b"", b"", false),
    ),
    (
        PLAY,
        SESSION,
        (None, None, Some(1)),
        (Status::LogFault, b"", b"", true),
    ),
    (
        REPLAY,
        LOGGED,
        (Some(0), None, Some(0)),
        (Status::SourceFault, b"", b"", false),
    ),
    (
        REPLAY,
        LOGGED,
        (None, None, Some(0)),
        (
            Status::Done,
            b"end groups=1 keys=1\nk string - v\n",
            b"",
            false,
        ),
    ),
    (
        REPLAY,
        LOGGED,
        (None, Some(0), Some(0)),
        (Status::SinkFault, b"", b"", false),
    ),
];

// How many rows from the first on leave what is told.
fn agreeing(alloc: Global, rows: &[Row]) -> Result<usize, NoMemory> {
    for (at, row) in rows.iter().enumerate() {
        if !leaves(alloc, row.0, row.1, row.2, row.3)? {
            return Ok(at);
        }
    }
    Ok(rows.len())
}

#[test]
fn runs_command_lines(rt: HostRuntime) -> Result<(), Fail> {
    let alloc = rt.alloc();
    assert_eq!(rt; lone_words(alloc, &LONE_ROWS)?, LONE_ROWS.len());
    assert_eq!(rt; agreeing(alloc, &PLAY_ROWS)?, PLAY_ROWS.len());
    assert_eq!(rt; agreeing(alloc, &REPLAY_ROWS)?, REPLAY_ROWS.len());
    assert_eq!(rt; agreeing(alloc, &REFUSED_ROWS)?, REFUSED_ROWS.len());
    assert_eq!(rt; agreeing(alloc, &FAULT_ROWS)?, FAULT_ROWS.len());
    Ok(())
}

fn add_piece(session: &mut Bytes, piece: &[u8]) -> Result<(), NoMemory> {
    session.append(b"1000 0 1 piece ")?;
    escape(piece, session)?;
    session.append(b"\n")
}

// A session of one client that sends the frames in pieces of `size` bytes behind a first piece.
fn session_of(alloc: Global, first: &[u8], rest: &[u8], size: usize) -> Result<Bytes, NoMemory> {
    let mut session = Bytes::from_slice(alloc, b"1000 0 1 opened\n")?;
    add_piece(&mut session, first)?;
    if size > 0 {
        for piece in rest.chunks(size) {
            add_piece(&mut session, piece)?;
        }
    }
    Ok(session)
}

// The frames of SET k v and GET k, as a client sends them.
const SET_AND_GET: &[u8] =
    b"*3\r\n$3\r\nSET\r\n$1\r\nk\r\n$1\r\nv\r\n*2\r\n$3\r\nGET\r\n$1\r\nk\r\n";

// The first cut of the frames into two pieces whose session does not leave what is told; their length, where none is.
fn first_wrong_cut(alloc: Global, frames: &[u8], left: Left) -> Result<usize, NoMemory> {
    for at in 0..frames.len() {
        let (front, back) = frames.split_at(at);
        let session = session_of(alloc, front, back, frames.len())?;
        if !leaves(alloc, PLAY, session.as_slice(), SURE, left)? {
            return Ok(at);
        }
    }
    Ok(frames.len())
}

// The first front of a log whose replay does not leave what is told; the log's length, where none is.
fn first_wrong_front(alloc: Global, log: &[u8], left: Left) -> Result<usize, NoMemory> {
    for at in 0..log.len() {
        let (front, _) = log.split_at(at);
        if !leaves(alloc, REPLAY, front, SURE, left)? {
            return Ok(at);
        }
    }
    Ok(log.len())
}

// A session in which clients 1 to `count` open.
fn clients(alloc: Global, count: u64) -> Result<Bytes, NoMemory> {
    let mut session = Bytes::new(alloc);
    for client in 1..=count {
        session.append(b"1000 0 ")?;
        write_decimal(client, &mut session)?;
        session.append(b" opened\n")?;
    }
    Ok(session)
}

const IN_TWO: Left = (
    Status::Done,
    b"1 send +OK\\r\\n\n1 send $1\\r\\nv\\r\\n\nend turns=3 keys=1 log=27\nk string - v\n",
    LOGGED,
    true,
);

const BYTE_BY_BYTE: Left = (
    Status::Done,
    b"1 send +OK\\r\\n\n1 send $1\\r\\nv\\r\\n\nend turns=48 keys=1 log=27\nk string - v\n",
    LOGGED,
    true,
);

// A thousand clients open; the next one is told that they are the most, and shut.
const ONE_TOO_MANY: Left = (
    Status::Done,
    b"1001 send -ERR\\smax\\snumber\\sof\\sclients\\sreached\\r\\n\n1001 shut\nend turns=1001 keys=0 log=0\n",
    b"",
    true,
);

const NO_GROUP: Left = (Status::Done, b"end groups=0 keys=0\n", b"", false);

#[test]
fn runs_cut_inputs(rt: HostRuntime) -> Result<(), Fail> {
    let alloc = rt.alloc();
    assert_eq!(rt; first_wrong_cut(alloc, SET_AND_GET, IN_TWO)?, 47);
    let (first, rest) = SET_AND_GET.split_at(1);
    let session = session_of(alloc, first, rest, 1)?;
    assert!(rt; leaves(alloc, PLAY, session.as_slice(), SURE, BYTE_BY_BYTE)?);
    let session = clients(alloc, 1_001)?;
    assert!(rt; leaves(alloc, PLAY, session.as_slice(), SURE, ONE_TOO_MANY)?);
    assert_eq!(rt; first_wrong_front(alloc, GROUP, NO_GROUP)?, 83);
    Ok(())
}
