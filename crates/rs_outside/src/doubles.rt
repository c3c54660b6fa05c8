//! Doubles of the outside: its forms in memory, for tests, case programs and proofs. The Sure forms never fail. The
//! Mem forms fail at the calls that they are told to: such a call counts a fault, and changes nothing else but the
//! number of calls.

pub mod calls;
pub mod log;
pub mod sink;
pub mod source;
pub mod wire;
