//! Ids as lines of text, each written with its short id.
#![tactic(auto)]

mod id;
mod lines;
mod row;

pub use lines::ids_lines;
