//! The opener's machine of rounds (BIP 330).
#![tactic(auto)]

mod answers;
mod fault;
mod machine;
mod outcome;
mod questions;
mod stage;

pub use fault::InitiatorFault;
pub use machine::Initiator;
pub use pool_rules::{Ending, Report};
