//! Tests of sessions over wires in memory, and of the commands that run them.
#![tactic(auto)]

#[cfg(test)]
mod exchanges;
#[cfg(test)]
mod limits;
#[cfg(test)]
mod tests;
