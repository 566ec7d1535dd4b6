//! The frames that wait to be sent.
#![tactic(auto)]

mod outbox;
#[cfg(test)]
mod tests;

pub use outbox::Outbox;
