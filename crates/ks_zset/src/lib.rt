//! Sorted sets: members with a score each, ordered by score and then member.
#![tactic(auto)]

mod laws;
mod ranking;
mod scores;
mod zset;

pub use laws::the_ranking_is_the_members_in_order;
pub use zset::Zset;

/// Members with their scores, in order.
pub type Scored = rs_base::Seq<(rs_base::Bytes, rs_whole::Whole)>;
