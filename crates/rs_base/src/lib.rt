//! What every crate of redscript stands on: byte strings, lists, decimal numbers, and the escape in which
//! each text of a session, a transcript and a dump is written.
#![tactic(auto)]

mod bytes;
mod decimals;
mod escapes;
mod memory;
mod sequence;

pub use bytes::Bytes;
pub use decimals::{decimal_prefix, parse_decimal, write_decimal};
pub use escapes::{escape, unescape};
pub use memory::NoMemory;
pub use sequence::Seq;

/// The words of a command, in order.
pub type Words = Seq<Bytes>;
