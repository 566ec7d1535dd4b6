//! The definitions of hashes, salted keys and short ids of transactions, in `specs/`. There is no code here.
#![tactic(auto)]

/// Bytes of one transaction, which are at least 1.
pub const TX_LIMIT: usize = 4_000_000;
