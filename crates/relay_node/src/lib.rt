//! A node over the bytes of its connection.
#![tactic(auto)]

mod frames;
mod link;
mod node;

pub use conversation::Stop;
pub use node::Node;
