//! The words of the command line, and the commands that they ask for.
#![tactic(auto)]

mod command;
mod number;
mod salt;

pub use command::{Command, command_of};
