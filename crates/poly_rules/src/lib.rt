//! The definitions of polynomials over a field, their remainders and the recurrences that they give, in `specs/`.
//! There is no code here.
#![tactic(auto)]
