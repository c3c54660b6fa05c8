ghost use Rattle.std.specs.Prelude.{◌<◌, ◌^◌, length};

use lua_lex::{Token, TokenKind, last_line, string_bytes, tokens};
use rs_base::{Bytes, NoMemory, escape, write_decimal};
use std::alloc::Global;

/// The tokens of the text, or its first fault.
pub fn put_tokens(alloc: Global, text: &[u8], out: &mut Bytes) -> Result<(), NoMemory>
    requires { length text.now < 2 ^ 31 }
{
    match tokens(alloc, text) {
        Ok(tokens) => put_each(alloc, tokens.as_slice(), out),
        Err(stop) => out.append(stop.to_string(alloc)?.as_str().as_bytes()),
    }
}

fn put_each(alloc: Global, tokens: &[Token], out: &mut Bytes) -> Result<(), NoMemory> {
    if tokens.is_empty() {
        return out.append(b"none");
    }
    for (at, token) in tokens.iter().enumerate() {
        if at > 0 {
            out.push(b' ')?;
        }
        put_kind(alloc, token.kind, out)?;
        put_place(token, out)?;
    }
    Ok(())
}

fn put_kind(alloc: Global, kind: TokenKind, out: &mut Bytes) -> Result<(), NoMemory> {
    match kind {
        TokenKind::Number(whole) => write_decimal(whole.get().unsigned_abs(), out),
        kind => out.append(format!(in alloc; "{kind:?}")?.as_str().as_bytes()),
    }
}

fn put_place(token: &Token, out: &mut Bytes) -> Result<(), NoMemory> {
    out.push(b'@')?;
    write_decimal(u64::from(token.line), out)?;
    out.push(b':')?;
    write_decimal(u64::from(token.start), out)?;
    out.push(b'-')?;
    write_decimal(u64::from(token.stop), out)
}

/// The bytes of the string, if the text is one.
pub fn put_string(alloc: Global, text: &[u8], out: &mut Bytes) -> Result<(), NoMemory> {
    match string_bytes(alloc, text)? {
        Some(bytes) => escape(bytes.as_slice(), out),
        None => out.append(b"no string"),
    }
}

/// The line of the text's end.
pub fn put_line(text: &[u8], out: &mut Bytes) -> Result<(), NoMemory>
    requires { length text.now < 2 ^ 31 }
{
    write_decimal(u64::from(last_line(text)), out)
}
