//! Scripts of what happens to two nodes: read from text, or made from a number.
#![tactic(auto)]

mod events;
mod generator;
mod line;
mod script;
#[cfg(test)]
mod tests;

pub use generator::generated_script;
pub use script::script_of;
