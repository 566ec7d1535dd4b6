//! Frames of the P2P protocol, both ways: written into bytes, and read from a stream that comes in pieces.
#![tactic(auto)]

mod feeder;
mod front;
mod header;
mod laws;
mod stop;
#[cfg(test)]
mod tests;
mod writing;

pub use feeder::Feeder;
pub use front::frame_in_front;
pub use header::is_command_field;
pub use laws::pieces_are_fed_as_one;
pub use stop::FeedStop;
pub use writing::{is_frame, write_frame, write_lent_frame};
