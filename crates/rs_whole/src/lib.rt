//! Whole numbers of at most 53 bits, with the arithmetic of Lua on them, and the texts that stand for them.
#![tactic(auto)]

mod digits;
mod integers;
mod numerals;
mod shifts;
mod whole;

pub use integers::integer;
pub use numerals::{literal, numeral};
pub use whole::{NotWhole, Whole};
