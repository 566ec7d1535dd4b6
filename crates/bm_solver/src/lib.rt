//! The shortest linear recurrence of a sequence over a field, by the algorithm of Berlekamp and Massey.
#![tactic(auto)]

mod candidate;
mod locator;
mod search;
mod solver;

pub use locator::{Locator, monic};
pub use search::{Search, shortest};
