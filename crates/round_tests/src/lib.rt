//! Tests of sets, of both machines of a round, and of whole rounds. They stand here so that the crates below are proved once.
#![tactic(auto)]

#[cfg(test)]
mod accepter;
#[cfg(test)]
mod differences;
#[cfg(test)]
mod made;
#[cfg(test)]
mod opener;
#[cfg(test)]
mod random;
#[cfg(test)]
mod rounds;
#[cfg(test)]
mod sets;
