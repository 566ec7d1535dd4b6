//! The laws of fractions whose terms are sums of odd powers, in `proofs/`.
#![tactic(auto)]
