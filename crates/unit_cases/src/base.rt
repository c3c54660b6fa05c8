//! Cases of the lowest crates: decimals, the escape, strings of bytes and lists; whole numbers and the texts that stand
//! for them; replies; requests.
//!
//! The calls, and what each answers. `None`, `NotWhole` and `Failed` are answers of that name.
//!
//! - `decimal TEXT`, `front TEXT`: the number that the text is, or that it begins with, and then what follows it.
//! - `escape BYTE ..`, `unescape TEXT`: the spelling of a text, and the text of a spelling. Its bytes are told by their
//!   numbers, so that these cases do not lean on the escape in which the words of a case are spelled.
//! - `compare TEXT TEXT`: the order of the two; behind it `below` where `<` holds, and `equal` where `==` does.
//! - `bytes`, `room N`, `push TEXT`, `append TEXT`, `keep`, `kept`, `moved`: a string of bytes until the next empty
//!   line.
//!   Each answers its length and its bytes. `room` begins it anew with memory, `push` takes one byte after another,
//!   `kept` tells the copy that `keep` made, and `moved` takes the bytes to a `Vec` and back.
//! - `words`, `word TEXT`, `nth N`, `same WORD ..`, `copy`: words until the next empty line. The first two answer how
//!   many and which, `word` with one more; then the word at a place, whether these are the words, and whether a copy
//!   is.
//! - `numbers N ..`, `shown TEXT`: how a list of numbers and a string of bytes are shown to a programmer.
//! - `NoMemory`, `NotWhole`: what the error says.
//! - `literal TEXT`, `numeral TEXT`, `integer TEXT`: the number that the text stands for.
//! - `new N`, `neg N`, `order N N`, `add N N`, `sub N N`, `mul N N`, `div N N`, `modulo N N`, `pow N N`: whole numbers.
//! - `reply PART ..`: a reply's bytes. The parts stand in reverse Polish order: `status TEXT`, `fault TEXT`, `int N`,
//!   `bulk TEXT`, `null` (no string), `no_array`; `array N` is an array of the last N replies.
//! - `equal PART ..`: whether the two replies that the parts are equal each other.
//! - `feed PIECE ..`: what a reader answers, which lives until the next empty line: each command as `@PLACE WORD ..`, a
//!   bad byte as `bad PLACE KIND`, or `Failed`; and then `+N`, how many bytes wait.
//! - `cut TEXT`: what a reader answers to the text, and to the text in two pieces, cut at each place in turn, the
//!   second
//!   whole and byte by byte. An answer that is not the first one stands behind its cut.
//! - `laws`: the theorems are called, which have no code.

mod held;
mod replies;
mod requests;
mod texts;
mod wholes;

use crate::answers::put_laws;
use held::Held;
use requests::Requests;
use resp_read::reading_is_the_grammar;
use resp_reply::{stands_on_one_line, texts_of_forms};
use rs_base::{Bytes, NoMemory};
use rs_cases::Subject;
use std::alloc::Global;

/// The lowest crates.
#[derive(Drop)]
pub struct Base {
    alloc: Global,
    held: Held,
    requests: Requests,
}

impl Base {
    pub fn new(alloc: Global) -> Base {
        Base {
            alloc,
            held: Held::new(alloc),
            requests: Requests::new(alloc),
        }
    }
}

impl Subject for Base {
    fn answer(&mut self, name: &[u8], args: &[Bytes], out: &mut Bytes) -> Result<bool, NoMemory> {
        let alloc = self.alloc;
        Ok(
            texts::answer(alloc, name, args, out)?
                || self.held.answer(name, args, out)?
                || wholes::answer(alloc, name, args, out)?
                || replies::answer(alloc, name, args, out)?
                || self.requests.answer(name, args, out)?
                || call_laws(name, args, out)?,
        )
    }

    fn begin(&mut self) {
        *self = Base::new(self.alloc);
    }
}

fn call_laws(name: &[u8], args: &[Bytes], out: &mut Bytes) -> Result<bool, NoMemory> {
    match (name, args) {
        (b"laws", []) => {
            texts_of_forms();
            stands_on_one_line();
            reading_is_the_grammar();
            put_laws(out)
        }
        _ => Ok(false),
    }
}
