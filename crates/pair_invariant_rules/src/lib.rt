//! What holds of two nodes at every moment, as definitions in `specs/`: two nodes with the messages on the way between
//! them, in place of bytes. There is no code here.
#![tactic(auto)]
