//! What the program reads and writes of the protocol as text: definitions in `specs/`, and the plain types that they speak
//! of. There is no code here.
#![tactic(auto)]

mod limits;
mod stream;

pub use limits::{EVENT_LIMIT, GENERATOR_LIMIT, MAIN_MAGIC};
pub use stream::StreamKind;
