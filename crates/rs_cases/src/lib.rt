//! Cases as data, for programs that carry calls out and say where an answer is another than it should be.
//!
//! A case is a line `WORD WORD .. => ANSWER`. The words are the call: they are separated by one space and spelled by
//! the escape of `rs_base`. The answer stands as it is written. A line that begins with `#` is a note, and an empty
//! line stands between cases that have nothing in common.
#![tactic(auto)]

mod judging;
mod run;
mod subject;
mod verdict;

pub use judging::judge;
pub use run::run_cases;
pub use subject::Subject;
pub use verdict::Verdict;
