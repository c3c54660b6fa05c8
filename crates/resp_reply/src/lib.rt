//! What the server answers: the replies of RESP2, and the bytes of each.
#![tactic(auto)]

mod encoding;
mod forms;
mod reply;

pub use encoding::put;
pub use forms::{stands_on_one_line, texts_of_forms};
pub use reply::{Replies, Reply};
