//! A node's conversation with its peer, in whole messages: the handshake, rounds, announcements, requests and transactions.
#![tactic(auto)]

mod additions;
mod conversation;
mod handshake;
mod inventory;
mod peer;
mod rounds;
mod stage;
mod stop;

pub use conversation::Conversation;
pub use stop::Stop;
