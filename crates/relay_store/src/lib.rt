//! What a node holds for its peer and wants from it: its pool, and the ids that are wanted, asked for and served.
#![tactic(auto)]

mod store;
#[cfg(test)]
mod tests;

pub use store::{Receipt, Store};
