//! What a node is and how it ends, as plain types, and the definition of each of its steps in `specs/`. There is no code
//! here.
#![tactic(auto)]

mod added;
mod config;
mod end;

pub use added::Added;
pub use config::{Config, Role};
pub use end::End;
