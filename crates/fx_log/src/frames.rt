ghost use Rattle.std.specs.Prelude.{◌≡◌, ◌++◌, map, OnOk};
ghost use Rattle.resp_read.specs.Frames.{count_line, bulk, frame};
ghost use Rattle.fx_log.specs.Groups.{record_text};

use fx_record::Record;
use itoa::Buffer;
use rs_base::{Bytes, NoMemory, write_decimal};

/// Adds a record as the frame of its words.
pub fn write_record(record: &Record, out: &mut Bytes) -> Result<(), NoMemory>
    ensures { OnOk result (out.new ≡ out.old ++ record_text «record».now) }
{
    match record {
        Record::Set { key, value } => write_frame(&[b"SET", key.as_slice(), value.as_slice()], out),
        Record::SetUntil {
            key,
            value,
            deadline,
        } => {
            let mut buffer = Buffer::new();
            let number = buffer.format(*deadline).as_bytes();
            let words = [
                b"SET".as_slice(),
                key.as_slice(),
                value.as_slice(),
                b"PXAT",
                number,
            ];
            write_frame(&words, out)
        }
        Record::SetKeeping { key, value } => write_frame(
            &[b"SET", key.as_slice(), value.as_slice(), b"KEEPTTL"],
            out,
        ),
        Record::Del { key } => write_frame(&[b"DEL", key.as_slice()], out),
        Record::ExpireAt { key, deadline } => {
            let mut buffer = Buffer::new();
            let number = buffer.format(*deadline).as_bytes();
            write_frame(&[b"PEXPIREAT", key.as_slice(), number], out)
        }
        Record::Persist { key } => write_frame(&[b"PERSIST", key.as_slice()], out),
        Record::Rename { from, to } => write_frame(
            &[b"RENAME", from.as_slice(), to.as_slice()],
            out,
        ),
        Record::FlushAll => write_frame(&[b"FLUSHALL"], out),
    }
}

/// Adds the frame of a command (RESP2, an array of bulk strings).
pub fn write_frame(words: &[&[u8]], out: &mut Bytes) -> Result<(), NoMemory>
    ensures { OnOk result (out.new ≡ out.old ++ frame (map (λ word. word.now) words.now)) }
{
    write_count(b"*", words.len(), out)?;
    for word in words {
        write_bulk(word, out)?;
    }
    Ok(())
}

fn write_bulk(word: &[u8], out: &mut Bytes) -> Result<(), NoMemory>
    ensures { OnOk result (out.new ≡ out.old ++ bulk word.now) }
{
    write_count(b"$", word.len(), out)?;
    out.append(word)?;
    out.append(b"\r\n")?;
    Ok(())
}

// Adds a mark, a number and the end of a line.
fn write_count(mark: &[u8], n: usize, out: &mut Bytes) -> Result<(), NoMemory>
    ensures { OnOk result (out.new ≡ out.old ++ count_line mark.now n) }
{
    out.append(mark)?;
    write_decimal(n as u64, out)?;
    out.append(b"\r\n")?;
    Ok(())
}
