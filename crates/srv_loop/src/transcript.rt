ghost use Rattle.std.specs.Prelude.{◌≡◌, ◌++◌, OnOk};
ghost use Rattle.srv_loop.specs.Transcript.{row_line, row_lines, ending};

use fx_log::dump;
use ks_space::Space;
use rs_base::{Bytes, NoMemory, escape, write_decimal};
use rs_outside::{OutRow, Outs};

/// Adds a row's line of the transcript: `CLIENT send TEXT` or `CLIENT shut`, ended by LF, TEXT escaped.
pub fn put_row(row: &OutRow, out: &mut Bytes) -> Result<(), NoMemory>
    ensures { OnOk result (out.new ≡ out.old ++ row_line row.now) }
{
    match row {
        OutRow::Sent(client, bytes) => {
            write_decimal(u64::from(*client), out)?;
            out.append(b" send ")?;
            escape(bytes.as_slice(), out)?;
            out.append(b"\n")?;
        }
        OutRow::Shut(client) => {
            write_decimal(u64::from(*client), out)?;
            out.append(b" shut")?;
            out.append(b"\n")?;
        }
    }
    Ok(())
}

/// Adds the lines of rows, in order.
pub fn put_rows(rows: &Outs, out: &mut Bytes) -> Result<(), NoMemory>
    ensures { OnOk result (out.new ≡ out.old ++ row_lines rows.now) }
{
    for row in rows.as_slice() {
        put_row(row, out)?;
    }
    Ok(())
}

/// Adds the last lines of the transcript: `end turns=T keys=K log=B`, and the dump.
pub fn put_ending(space: &Space, turns: u64, logged: u64, out: &mut Bytes) -> Result<(), NoMemory>
    ensures { OnOk result (out.new ≡ out.old ++ ending turns logged space.now) }
{
    out.append(b"end turns=")?;
    write_decimal(turns, out)?;
    out.append(b" keys=")?;
    write_decimal(space.len() as u64, out)?;
    out.append(b" log=")?;
    write_decimal(logged, out)?;
    out.append(b"\n")?;
    dump(space, out)
}
