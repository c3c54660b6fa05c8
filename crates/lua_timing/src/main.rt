//! Counts in the Lua text on standard input what its arguments name, a line for each: `tokens`, or `trees`, which are
//! told by the statements of the main text. Where the text stops, the line says so. `bench/lua_texts.py` times it.
#![tactic(auto)]

ghost use Rattle.std.specs.Prelude.{◌<◌, ◌^◌, length};

use lua_lex::tokens;
use lua_parse::parse;
use rs_base::Bytes;
use std::env;
use std::io::Read;
use std::process::ExitCode;

// How many bytes are read at a time, and how many times at most: 256 MiB in all.
const PIECE_BYTES: usize = 65_536;

const PIECES: u32 = 4_096;

fn main(rt: HostRuntime) -> ExitCode {
    match count_each(&rt) {
        Some(()) => ExitCode::SUCCESS,
        None => ExitCode::FAILURE,
    }
}

// `None` where an argument names nothing to count, the text is too long, memory runs out or a stream fails.
fn count_each(rt: &HostRuntime) -> Option<()> {
    let text = read_text(rt)?;
    for word in env::args(rt).ok()?.skip(1) {
        count(rt, word.as_str(), text.as_slice())?;
    }
    Some(())
}

fn count(rt: &HostRuntime, word: &str, text: &[u8]) -> Option<()> {
    if text.len() > 268_435_456 {
        return None;
    }
    match word {
        "tokens" => count_tokens(rt, text),
        "trees" => count_statements(rt, text),
        _ => None,
    }
}

fn count_tokens(rt: &HostRuntime, text: &[u8]) -> Option<()>
    requires { length text.now < 2 ^ 31 }
{
    match tokens(rt.alloc(), text) {
        Ok(list) => println!(rt; "{} tokens", list.len()).ok(),
        Err(stop) => println!(rt; "{stop}").ok(),
    }
}

fn count_statements(rt: &HostRuntime, text: &[u8]) -> Option<()>
    requires { length text.now < 2 ^ 31 }
{
    match parse(rt.alloc(), text) {
        Ok(chunk) => println!(rt; "{} statements", chunk.block.len()).ok(),
        Err(stop) => println!(rt; "{stop}").ok(),
    }
}

// The whole input; nothing where it cannot be read, is longer than that, or memory runs out.
fn read_text(rt: &HostRuntime) -> Option<Bytes> {
    let mut text = Bytes::new(rt.alloc());
    let mut buffer = vec![in rt.alloc(); 0u8; PIECE_BYTES].ok()?;
    for _ in 0..PIECES {
        let n = rt.reader().read(&mut buffer).ok()?;
        if n == 0 {
            return Some(text);
        }
        let (piece, _) = buffer.split_at(n);
        text.append(piece).ok()?;
    }
    None
}
