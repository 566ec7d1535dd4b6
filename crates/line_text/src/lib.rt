//! The lines of a text that aren't empty, with their numbers, and why a text was not read.
#![tactic(auto)]

mod cut;
mod iterator;
mod stop;

pub use iterator::{TextLine, TextLines, count};
pub use stop::ReadStop;

#[cfg(test)]
mod tests;
