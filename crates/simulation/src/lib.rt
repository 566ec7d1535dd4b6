//! What two new nodes are told to do by a script, and what is written of them.
#![tactic(auto)]

mod beginning;
mod run_text;
mod simulation;
#[cfg(test)]
mod tests;

pub use simulation::{Simulation, simulation_of};
