ghost use Rattle.std.specs.Prelude.{◌<◌, ◌^◌, length};

use crate::trees::put_chunk;
use lua_parse::{ParseStop, parse};
use rs_base::{Bytes, NoMemory};
use std::alloc::Global;

/// The tree of the text, or its stop.
pub fn put_tree(alloc: Global, text: &[u8], out: &mut Bytes) -> Result<(), NoMemory>
    requires { length text.now < 2 ^ 31 }
{
    match parse(alloc, text) {
        Ok(chunk) => put_chunk(alloc, &chunk, out),
        Err(stop) => put_stop(alloc, stop, out),
    }
}

/// Whether the text has a tree, or its stop.
pub fn put_outcome(alloc: Global, text: &[u8], out: &mut Bytes) -> Result<(), NoMemory>
    requires { length text.now < 2 ^ 31 }
{
    match parse(alloc, text) {
        Ok(_) => out.append(b"tree"),
        Err(stop) => put_stop(alloc, stop, out),
    }
}

fn put_stop(alloc: Global, stop: ParseStop, out: &mut Bytes) -> Result<(), NoMemory> {
    out.append(stop.to_string(alloc)?.as_str().as_bytes())
}
