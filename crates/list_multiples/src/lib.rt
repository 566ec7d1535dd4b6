//! The multiples of a fixed list over a field.
#![tactic(auto)]

mod adding;
mod list_multiples;
mod rows;
#[cfg(test)]
mod tests;

pub use list_multiples::ListMultiples;
pub use rows::add_each;
