//! Cases of the crates that read Lua texts. A call and its answer:
//!
//! - `tokens TEXT`: each token as `KIND@LINE:START-STOP`, with a number in place of its kind; `none`; or the fault.
//! - `string TEXT`: the bytes of the string, escaped, or `no string`.
//! - `line TEXT`: the line of the text's end.
//! - `parse TEXT`: the tree, `none` where there is no statement, or the stop.
//! - `parse_joined PART ..`: `tree`, or the stop, of the parts put together. A part `N*WORD` is the word N times.
//! - `enter function`, `enter block`, `leave`, `entered`, `declare NAME`, `find NAME`, `captures`: scopes, from those
//!   of the main text on. A declaration answers the number of its local.
//!
//! A TEXT is one word or several, with a space between them.
//!
//! A tree is written in the words of its text, without those that the form tells. `; ` stands between statements, and
//! before one that is not on the first line its line and `@`. Blocks and constructors stand in `{ }`, a row of
//! operators with its operands in `( )`, what the text has in parentheses in `< >`. A function is `#` and its number;
//! the bodies of the functions stand behind the main text in order, each with its line.
#![tactic(auto)]

mod lexing;
mod parsing;
mod scoping;
mod texts;
mod trees;

use lexing::{put_line, put_string, put_tokens};
use lua_scope::Scopes;
use parsing::{put_outcome, put_tree};
use rs_base::{Bytes, NoMemory};
use rs_cases::{Subject, run_cases};
use std::alloc::Global;
use std::process::ExitCode;
use texts::{joined, repeated};

#[derive(Drop)]
struct LuaCalls {
    alloc: Global,
    scopes: Scopes,
}

impl Subject for LuaCalls {
    fn answer(&mut self, name: &[u8], words: &[Bytes], out: &mut Bytes) -> Result<bool, NoMemory> {
        let Ok(name) = str::from_utf8(name) else {
            return Ok(false);
        };
        if name == "parse_joined" {
            let text = repeated(self.alloc, words)?;
            put_outcome(self.alloc, text.as_slice(), out)?;
            return Ok(true);
        }
        let text = joined(self.alloc, words)?;
        self.answer_to_text(name, text.as_slice(), out)
    }

    fn begin(&mut self) {
        self.scopes = Scopes::new(self.alloc);
    }
}

impl LuaCalls {
    ghost use Rattle.std.specs.Prelude.{◌<◌, ◌^◌, length};

    fn answer_to_text(&mut self, name: &str, text: &[u8], out: &mut Bytes) -> Result<bool, NoMemory>
        requires { length text.now < 2 ^ 31 }
    {
        match name {
            "tokens" => put_tokens(self.alloc, text, out)?,
            "string" => put_string(self.alloc, text, out)?,
            "line" => put_line(text, out)?,
            "parse" => put_tree(self.alloc, text, out)?,
            _ => return scoping::answer(&mut self.scopes, name, text, out),
        }
        Ok(true)
    }
}

fn main(rt: HostRuntime) -> ExitCode {
    let mut calls = LuaCalls {
        alloc: rt.alloc(),
        scopes: Scopes::new(rt.alloc()),
    };
    run_cases(&rt, &mut calls)
}
