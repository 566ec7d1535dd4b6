//! The accepter's machine of rounds: it answers a request with a sketch of its set, twice at most with an extension of it,
//! and a difference with an announcement.
#![tactic(auto)]

mod asks;
mod fault;
mod responder;
mod round;

pub use fault::ResponderFault;
pub use responder::Responder;
