//! The laws of lists whose items differ, in `proofs/`.
#![tactic(auto)]
