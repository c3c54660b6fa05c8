//! A sequence that takes and gives up items anywhere in logarithmic time: a balanced tree that counts its items.
#![tactic(auto)]

mod list;
mod tree;

pub use list::TreeList;
