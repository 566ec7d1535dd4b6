//! Lists of ids, each with a value: in order, with a look-up, and with cheap removal.
#![tactic(auto)]

mod list;
#[cfg(test)]
mod tests;

pub use list::{Entry, IdList};
