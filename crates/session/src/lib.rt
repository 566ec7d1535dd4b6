//! A session of one node over a wire.
#![tactic(auto)]

mod exchange;
mod progress;
mod steps;

pub use exchange::session;
pub use session_rules::{PIECE_LIMIT, SESSION_LIMIT, SessionEnd};
