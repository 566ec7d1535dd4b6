//! Pools of transactions, and pool files.
#![tactic(auto)]

mod heading;
mod line;
mod load;
mod number;
mod pool;
mod save;

pub use line::{LineStop, tx_in};
pub use number::number_within;
pub use pool::Pool;

#[cfg(test)]
mod tests;
