//! Messages as frames, both ways.
#![tactic(auto)]

mod decoding;
mod encoding;
mod fault;
mod limits;
mod pieces;
mod reader;
#[cfg(test)]
mod tests;

pub use decoding::{decode_frame, decode_ref};
pub use encoding::encode;
pub use fault::DecodeFault;
pub use limits::is_within_limits;
