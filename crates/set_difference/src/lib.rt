//! What two sets differ in, found from the bytes of their sketches.
#![tactic(auto)]

mod bytes;
mod fault;
#[cfg(test)]
mod tests;

pub use bytes::{decode_bytes, difference};
pub use fault::DifferenceFault;
