//! Messages as lines of text, both ways.
#![tactic(auto)]

mod fields;
mod showing;
#[cfg(test)]
mod tests;

pub use showing::{show, show_into};
