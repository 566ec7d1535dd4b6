//! What happens between two nodes, as plain types, and the definitions of their world and its rounds, in `specs/`,
//! with the statements of what is to be proved of them. There is no code here.
#![tactic(auto)]

mod event;
mod side;

pub use event::Event;
pub use side::Side;
