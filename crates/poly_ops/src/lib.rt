//! Polynomials over a field: their values, their remainders and quotients, and the recurrences that they give.
#![tactic(auto)]

mod divisor;
mod frobenius;
mod poly;
mod recurrence;
mod remainder;

pub use frobenius::frobenius_table;
pub use poly::Poly;
pub use recurrence::extend_recurrence;
pub use remainder::{quotient, rem_monic, square_mod};
