//! The tokens of a Lua text (Lua 5.1 manual, 2.1).
#![tactic(auto)]

mod items;
mod kinds;
mod lines;
mod long;
mod quotes;
mod runs;
mod scanner;
mod symbols;
mod values;
mod words;

pub use kinds::{LexKind, LexStop, Token, TokenKind, TokenList};
pub use lines::last_line;
pub use scanner::{one_token_list, tokens};
pub use values::string_bytes;
