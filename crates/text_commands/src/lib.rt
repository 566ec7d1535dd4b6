//! The commands that work on an input: words, input, answer, output.
#![tactic(auto)]

mod decode;
mod faults;
mod ids;
mod laws;
mod make;
mod merge;
mod pack;
mod report;
mod show;
mod sim;
mod sketch_lines;
mod status;
mod top;

pub use laws::differences_are_decoded;
pub use report::Report;
pub use status::Status;
pub use top::{finish, run, stopped};
