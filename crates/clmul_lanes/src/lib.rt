//! The field of 2 ^ 32 elements over lanes and tables: work on lists of elements, many at once.
#![tactic(auto)]

mod axpy;
mod conjugates;
mod fractions;
mod gathered_sums;
mod lane32;
mod lane_multiples;
mod lanes;
mod multiples;
mod nibble_tables;
mod odd_powers;
mod planes;
mod products;
mod rows;
mod small_sums;
#[cfg(test)]
mod tests;

pub use lane32::Lane32;
pub use products::{product4, reduce4};
