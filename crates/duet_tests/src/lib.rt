//! Random scripts at two nodes. They stand here so that the crates below are proved once.
#![tactic(auto)]

#[cfg(test)]
mod counts;
#[cfg(test)]
mod pairs;
#[cfg(test)]
mod random;
#[cfg(test)]
mod run;
#[cfg(test)]
mod scripts;
