ghost use Rattle.std.specs.Prelude.{◌≡◌, [], ◌∷◌, ◌++◌, codes, decimal, OnOk};
ghost use Rattle.std.specs.Fmt.{signed_decimal};
ghost use Rattle.resp_reply.specs.Replies.{line, bulk_text, in_one_line, blanked, reply_text};

use crate::Reply;
use itoa::Buffer;
use rs_base::{Bytes, NoMemory, write_decimal};

/// Adds the one spelling of a reply at the end of `out`.
pub fn put(reply: &Reply, out: &mut Bytes) -> Result<(), NoMemory>
    ensures { OnOk result (out.new ≡ out.old ++ reply_text reply.now) }
{
    match reply {
        Reply::Status(text) => put_text_line(b'+', text.as_slice(), out),
        Reply::Fault(text) => put_text_line(b'-', text.as_slice(), out),
        Reply::Int(n) => put_int(*n, out),
        Reply::Bulk(bytes) => put_bulk(bytes.as_slice(), out),
        Reply::NullBulk => out.append(b"$-1\r\n"),
        Reply::Array(items) => {
            put_count(b'*', items.len(), out)?;
            for item in items.as_slice() {
                put(item, out)?;
            }
            Ok(())
        }
        Reply::NullArray => out.append(b"*-1\r\n"),
    }
}

fn put_text_line(mark: u8, text: &[u8], out: &mut Bytes) -> Result<(), NoMemory>
    ensures { OnOk result (out.new ≡ out.old ++ line (mark ∷ []) (in_one_line text.now)) }
{
    out.push(mark)?;
    for byte in text {
        out.push(without_line_end(*byte))?;
    }
    out.append(b"\r\n")
}

fn without_line_end(byte: u8) -> u8
    ensures { result ≡ blanked byte }
{
    match byte {
        b'\r' | b'\n' => b' ',
        _ => byte,
    }
}

fn put_int(n: i64, out: &mut Bytes) -> Result<(), NoMemory>
    ensures { OnOk result (out.new ≡ out.old ++ line (codes ":") (signed_decimal n)) }
{
    let mut buffer = Buffer::new();
    out.push(b':')?;
    out.append(buffer.format(n).as_bytes())?;
    out.append(b"\r\n")
}

fn put_bulk(bytes: &[u8], out: &mut Bytes) -> Result<(), NoMemory>
    ensures { OnOk result (out.new ≡ out.old ++ bulk_text bytes.now) }
{
    put_count(b'$', bytes.len(), out)?;
    out.append(bytes)?;
    out.append(b"\r\n")
}

// A line with a number of items or bytes.
fn put_count(mark: u8, count: usize, out: &mut Bytes) -> Result<(), NoMemory>
    ensures { OnOk result (out.new ≡ out.old ++ line (mark ∷ []) (decimal count)) }
{
    out.push(mark)?;
    write_decimal(count as u64, out)?;
    out.append(b"\r\n")
}
