//! The scopes of a Lua text: what each name in it stands for (Lua 5.1 manual, 2.6).
#![tactic(auto)]

mod function;
mod laws;
mod place;
mod scopes;

pub use laws::{captured_locals_are_found, names_stand_for_the_innermost_local};
pub use place::Place;
pub use scopes::Scopes;
