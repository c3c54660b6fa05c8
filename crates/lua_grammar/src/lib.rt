//! The tree of a Lua text, and the grammar that says which words are a text and which tree it has (Lua 5.1 manual, 8).
#![tactic(auto)]

mod context;
mod expressions;
mod kinds;
mod laws;
mod operators;
mod statements;
mod words;

pub use context::Context;
pub use expressions::{Call, Expr, Field, Key, Link, Name, Suffix};
pub use kinds::SyntaxKind;
pub use laws::{a_tree_has_no_stop, one_stop, one_tree};
pub use operators::{Binary, Operator, Unary, binary_operator, unary_operator};
pub use statements::{Block, Body, Branch, Chunk, Deed, Stat, Target};
pub use words::{Word, begins_suffix, ends_block, ends_return};
