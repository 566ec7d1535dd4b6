//! Plain types that every layer speaks of: errors, hashes, lists, and the faults of text input.
#![tactic(auto)]

mod errors;
mod lists;
mod text;

pub use errors::{Failed, OutOfMemory};
pub use lists::{Bytes, Elems, Hash32, Hashes, Shorts};
pub use text::{Kind, TextFault};
