//! The set of elements that a text lists, one a line.
#![tactic(auto)]

mod element;
mod plain;
mod reading;
mod repeats;
mod seats;
mod set;

pub use element::element_of;
pub use set::set_of;

#[cfg(test)]
mod tests;
