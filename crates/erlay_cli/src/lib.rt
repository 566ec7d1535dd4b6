//! The program's top call: words, chance, input, output, wire and shelf.
#![tactic(auto)]

mod chance;
mod course;
mod exchange;
mod link;
mod program;
mod report;
mod top;
mod words;

pub use chance::Chance;
pub use program::exit_code;
pub use text_commands::{Status, stopped};
pub use top::run;
