//! The values of a store that hold many items: lists, hashes and sets.
#![tactic(auto)]

mod hash;
mod iter;
mod laws;
mod list;
mod member;
mod set;

pub use hash::HashValue;
pub use iter::{HashIter, ListIter, SetIter};
pub use laws::{
    a_field_that_is_removed_leaves_alone, a_field_that_is_set_changes_alone,
    a_set_changes_by_one_member,
};
pub use list::ListValue;
pub use set::SetValue;
