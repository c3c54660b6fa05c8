//! The store: keys with their values and deadlines, and the purge of the keys whose deadline has passed.
#![tactic(auto)]

mod deadlines;
mod entry;
mod laws;
mod space;
mod table;

pub use entry::{Entry, Value};
pub use laws::{purge_removes_the_keys_past_their_deadline, stores_with_equal_entries_are_equal};
pub use space::Space;
