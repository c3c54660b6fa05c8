//! What every command is told before it runs, how its numbers and times are read, and the patterns of KEYS. A call and
//! its answer:
//!
//! - `find WORD`: the name of the command that the word names, or `none`.
//! - `takes NAME N`: whether the command takes N words, its name counted.
//! - `refusal REASON`, `refusal REASON WORD`: what a refusal says. The word is the command that the reason names, or
//!   the word that names none.
//! - `draws WORD N`: the first N draws of a turn whose draws begin at the word. `below WORD N`: the first place that is
//!   drawn among N.
//! - `number WORD`: the integer that the word spells.
//! - `deadline KIND NOW N`, `expire_time KIND NOW N`: the deadline that SET gives a key, and the time at which EXPIRE
//!   lets it expire, for a number N at the time NOW. The kind is what N counts: `in_seconds`, `in_millis`, `at_second`
//!   or `at_millis`.
//! - `glob PATTERN TEXT`, `glob_many PATTERN N TEXT`: whether the pattern matches the text, or N such texts one behind
//!   another.
//! - `laws`: the theorems are called, which have no code.
//!
//! A number or a time that is refused is told by what the refusal says.

mod globs;
mod refusals;
mod tables;
mod times;

use crate::answers::put_laws;
use cmd_args::{
    a_draw_is_within_its_range, a_name_is_found_in_letters_of_either_case,
    a_row_that_is_found_is_its_commands, draws_follow_one_another, each_name_stands_once,
};
use cmd_glob::{
    a_pattern_is_read_from_the_left, a_pattern_matches_whole_texts, a_set_matches_one_of_its_bytes,
};
use cmd_rows::{a_number_is_the_integer_that_a_word_spells, records_that_keep_to_time_and_limits};
use rs_base::{Bytes, NoMemory};
use rs_cases::Subject;
use std::alloc::Global;

/// What commands stand on. Nothing lives until the next empty line.
#[derive(Drop)]
pub struct Commands {
    alloc: Global,
}

impl Commands {
    pub fn new(alloc: Global) -> Commands {
        Commands { alloc }
    }
}

impl Subject for Commands {
    fn answer(&mut self, name: &[u8], args: &[Bytes], out: &mut Bytes) -> Result<bool, NoMemory> {
        let alloc = self.alloc;
        Ok(
            tables::answer(alloc, name, args, out)?
                || refusals::answer(alloc, name, args, out)?
                || times::answer(alloc, name, args, out)?
                || globs::answer(alloc, name, args, out)?
                || call_laws(name, args, out)?,
        )
    }

    fn begin(&mut self) {}
}

fn call_laws(name: &[u8], args: &[Bytes], out: &mut Bytes) -> Result<bool, NoMemory> {
    match (name, args) {
        (b"laws", []) => {
            each_name_stands_once();
            a_name_is_found_in_letters_of_either_case();
            a_row_that_is_found_is_its_commands();
            a_draw_is_within_its_range();
            draws_follow_one_another();
            a_number_is_the_integer_that_a_word_spells();
            records_that_keep_to_time_and_limits();
            a_pattern_is_read_from_the_left();
            a_set_matches_one_of_its_bytes();
            a_pattern_matches_whole_texts();
            put_laws(out)
        }
        _ => Ok(false),
    }
}
