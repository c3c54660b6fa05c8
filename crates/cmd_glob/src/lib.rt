//! Glob patterns, as KEYS has them: which texts a pattern matches.
#![tactic(auto)]

mod byte_set;
mod glob;
mod laws;
mod matching;
mod parsing;
mod part;
mod symbol;

pub use glob::Glob;
pub use laws::{
    a_pattern_is_read_from_the_left, a_pattern_matches_whole_texts, a_set_matches_one_of_its_bytes,
};
