//! Tests of nodes at what a peer sends. They stand here so that the crates below are proved once.
#![tactic(auto)]

#[cfg(test)]
mod answers;
#[cfg(test)]
mod fullness;
#[cfg(test)]
mod lines;
#[cfg(test)]
mod nodes;
