//! Ids of transactions, and their short ids under the salted key of two nodes.
#![tactic(auto)]

mod keys;
mod sip;

pub use keys::{Keys, short_id, wtxid};
pub use sip::sip24;

#[cfg(test)]
mod tests;
