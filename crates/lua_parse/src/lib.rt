//! The tree of a Lua text, or where and why it has none.
#![tactic(auto)]

mod bodies;
mod chains;
mod expressions;
mod grammar;
mod interner;
mod kinds;
mod laws;
mod limits;
mod lists;
mod loops;
mod parser;
mod reader;
mod sought;
mod statements;
mod stops;
mod tables;
mod trees;

pub use laws::one_answer;
pub use parser::parse;
pub use stops::{ParseKind, ParseStop};
