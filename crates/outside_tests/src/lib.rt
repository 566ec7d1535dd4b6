//! Tests of the outside: of the fakes, of the adapters, and of what moves bytes through them. They stand here so that the crate below is proved once.
#![tactic(auto)]

#[cfg(test)]
mod fakes;
#[cfg(test)]
mod moving;
#[cfg(test)]
mod shelves;
#[cfg(test)]
mod wires;
