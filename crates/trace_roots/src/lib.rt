//! The set that a sketch is of, found by taking it apart by traces.
#![tactic(auto)]

mod check;
mod decoding;
mod half;
mod members;
mod pair;
mod part;
mod splitting;

pub use decoding::decode;
pub use splitting::split;
