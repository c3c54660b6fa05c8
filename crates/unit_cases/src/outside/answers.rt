use crate::answers::put_words;
use rs_base::{Bytes, NoMemory, Words, escape, write_decimal};
use rs_outside::{IoStop, OutRow, Outs, Starts, Step, Turn, What};

/// `ok`, or why not.
pub fn put_done(outcome: Result<(), IoStop>, out: &mut Bytes) -> Result<(), NoMemory> {
    match outcome {
        Ok(()) => out.append(b"ok"),
        Err(stop) => put_stop(stop, out),
    }
}

/// How many bytes were taken, or why none.
pub fn put_count(outcome: Result<usize, IoStop>, out: &mut Bytes) -> Result<(), NoMemory> {
    match outcome {
        Ok(count) => write_decimal(count as u64, out),
        Err(stop) => put_stop(stop, out),
    }
}

/// What a wire gives, or why nothing.
pub fn put_step(outcome: Result<Step, IoStop>, out: &mut Bytes) -> Result<(), NoMemory> {
    match outcome {
        Ok(Step::Given(turn)) => put_turn(&turn, out),
        Ok(Step::End) => out.append(b"end"),
        Err(stop) => put_stop(stop, out),
    }
}

fn put_stop(stop: IoStop, out: &mut Bytes) -> Result<(), NoMemory> {
    match stop {
        IoStop::Failed => out.append(b"failed"),
        IoStop::NoMemory => Err(NoMemory),
    }
}

fn put_turn(turn: &Turn, out: &mut Bytes) -> Result<(), NoMemory> {
    out.append(b"given ")?;
    write_decimal(turn.clock, out)?;
    out.push(b' ')?;
    write_decimal(turn.word, out)?;
    out.push(b' ')?;
    write_decimal(u64::from(turn.client), out)?;
    put_what(&turn.what, out)
}

fn put_what(what: &What, out: &mut Bytes) -> Result<(), NoMemory> {
    match what {
        What::Opened => out.append(b" opened"),
        What::Piece(bytes) => {
            out.append(b" piece ")?;
            escape(bytes.as_slice(), out)
        }
        What::Closed => out.append(b" closed"),
        What::Idle => out.append(b" idle"),
    }
}

/// Names with a space between.
pub fn put_names(names: &Words, out: &mut Bytes) -> Result<(), NoMemory> {
    if names.is_empty() {
        return out.append(b"none");
    }
    put_words(names.as_slice(), out)
}

/// Rows in the form of the calls that sent them.
pub fn put_rows(rows: &Outs, out: &mut Bytes) -> Result<(), NoMemory> {
    if rows.is_empty() {
        return out.append(b"none");
    }
    for (at, row) in rows.as_slice().iter().enumerate() {
        if at > 0 {
            out.append(b"; ")?;
        }
        put_row(row, out)?;
    }
    Ok(())
}

fn put_row(row: &OutRow, out: &mut Bytes) -> Result<(), NoMemory> {
    match row {
        OutRow::Sent(client, bytes) => {
            out.append(b"send ")?;
            write_decimal(u64::from(*client), out)?;
            out.push(b' ')?;
            escape(bytes.as_slice(), out)
        }
        OutRow::Shut(client) => {
            out.append(b"shut ")?;
            write_decimal(u64::from(*client), out)
        }
    }
}

/// Ports with their words.
pub fn put_starts(starts: &Starts, out: &mut Bytes) -> Result<(), NoMemory> {
    if starts.is_empty() {
        return out.append(b"none");
    }
    for (at, start) in starts.as_slice().iter().enumerate() {
        if at > 0 {
            out.append(b"; ")?;
        }
        write_decimal(u64::from(start.port), out)?;
        out.push(b' ')?;
        write_decimal(start.word, out)?;
    }
    Ok(())
}
