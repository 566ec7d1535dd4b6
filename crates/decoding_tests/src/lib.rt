//! Tests of polynomials, of shortest recurrences and of the decoder. They stand here so that the crates below are proved once.
#![tactic(auto)]

#[cfg(test)]
mod decoding;
#[cfg(test)]
mod polynomials;
#[cfg(test)]
mod recurrences;
