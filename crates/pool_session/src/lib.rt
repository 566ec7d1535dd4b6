//! A session of a node whose pool is a file of a shelf: the pool is loaded, and saved where the session is done.
#![tactic(auto)]

mod loading;
mod outcome;
mod running;
#[cfg(test)]
mod tests;

pub use loading::{PoolStop, load_pool};
pub use outcome::Outcome;
pub use running::run_session;
