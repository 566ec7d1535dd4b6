//! Frames, messages and phases as plain types, and the definitions of how they are spelled, read and shown, in
//! `specs/`. There is no code here.
#![tactic(auto)]

mod faults;
mod frame;
mod limits;
mod message;
mod name;
mod phase;

pub use faults::{PayloadFault, PayloadKind};
pub use frame::{Frame, FrameFault, FrameRef};
pub use limits::{AGENT_LIMIT, HEADER_LEN, LIST_LIMIT, PAYLOAD_LIMIT};
pub use message::{InvEntry, Invs, Message, Outs, VersionMsg};
pub use name::Name;
pub use phase::Phase;
