//! Streams of frames as lines of text, and lines as frames.
#![tactic(auto)]

mod packing;
mod showing;
mod stop;
#[cfg(test)]
mod tests;

pub use packing::packed_frames;
pub use showing::shown_text;
pub use stop::ShowStop;
