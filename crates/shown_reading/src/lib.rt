//! Lines as messages: the message whose shown line a line is.
#![tactic(auto)]

mod fault;
mod fields;
mod lists;
mod messages;
mod reading;
mod words;

pub use fault::ShownFault;
pub use reading::read_shown;
