//! The machine of many clients: it takes turns one by one, reads each client's bytes as commands, and has them
//! carried out at a desk.
#![tactic(auto)]

mod client;
mod grouping;
mod laws;
mod sending;
mod server;
#[cfg(test)]
mod tests;

pub use client::MAX_CLIENTS;
pub use laws::{cutting_is_free, log_gives_the_store, store_follows_history, turns_keep_validity};
pub use server::Server;
