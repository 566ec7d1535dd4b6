//! What pools, sets and rounds are, as plain types, and their definitions in `specs/`. There is no code here.
#![tactic(auto)]

mod insertion;
mod limits;
mod report;

pub use insertion::Inserted;
pub use limits::{
    FIRST_COEFFICIENT, FIRST_LIMIT, LEAST_CAPACITY, POOL_BYTES, POOL_FILE_LIMIT, POOL_LIMIT,
};
pub use report::{Ending, Report};
