//! How a session of one node over a wire ends, as a plain type, and the definition of a session, in `specs/`. There is no
//! code here.
#![tactic(auto)]

mod limits;
mod session_end;

pub use limits::{PIECE_LIMIT, SESSION_LIMIT};
pub use session_end::SessionEnd;
