//! The lines that a program writes in place of an answer, where its input has a fault, and the texts in them.
#![tactic(auto)]

mod kind;
mod stream;

pub use kind::bad_input_line;
pub use stream::{bad_stream_line, frame_fault_text, payload_fault_text};
