//! The definitions of sums and sketches, in `specs/`, and how large a sketch may be. There is no code here.
#![tactic(auto)]

mod limits;

pub use limits::{MAX_CAPACITY, MAX_SKETCH_BYTES};
