//! Two nodes, and the wires between them.
#![tactic(auto)]

mod duet;
mod events;
mod stop;

pub use duet::Duet;
pub use stop::DuetStop;
