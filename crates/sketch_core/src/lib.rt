//! Sketches of sets of field elements: the sums of their odd powers.
#![tactic(auto)]

mod decoded;
mod fault;
mod sketch;
#[cfg(test)]
mod tests;

pub use decoded::Decoded;
pub use fault::SketchFault;
pub use sketch::Sketch;
