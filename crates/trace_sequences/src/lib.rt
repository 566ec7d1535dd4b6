//! The sequences of traces on the roots of a polynomial, by which a set is taken apart.
#![tactic(auto)]

mod correlations;
mod halved;
mod lists;
mod rows;
mod sequence;
mod squares;
mod taps;
mod traces;

pub use correlations::all_correlations;
pub use sequence::Sequence;
pub use traces::traces_from;
