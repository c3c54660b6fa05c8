//! What lies outside of redscript, as traits with a stated meaning: where bytes come from and go to, the effect log,
//! and the clients. Each trait has two doubles in memory: one that never fails, and one that fails at the calls that it
//! is told to.
#![tactic(auto)]

mod doubles;
mod log;
mod sink;
mod source;
mod status;
mod stops;
mod turn;
mod wire;

pub use doubles::calls::Calls;
pub use doubles::log::{MemLog, SureLog};
pub use doubles::sink::{MemSink, SureSink};
pub use doubles::source::{MemSource, SureSource};
pub use doubles::wire::{MemWire, SureWire};
pub use log::Log;
pub use sink::Sink;
pub use source::Source;
pub use status::Status;
pub use stops::{Failed, IoStop};
pub use turn::{Go, OutRow, Outs, Turn, Turns, What};
pub use wire::{Start, Starts, Step, Wire};
