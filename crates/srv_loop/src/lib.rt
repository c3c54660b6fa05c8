//! Serving and playing: turns that come over a wire or from a recorded session are taken by the machine, what they
//! log goes to the log, and then what they send goes to the wire or the transcript.
#![tactic(auto)]

mod gathering;
mod laws;
mod playing;
mod serving;
mod session;
#[cfg(test)]
mod tests;
mod transcript;
mod writing;

pub use laws::log_replays;
pub use playing::play;
pub use serving::serve;
pub use session::{MAX_PIECE_BYTES, session_line};
pub use transcript::put_row;
pub use writing::write_out;
