//! The definitions of lines of text and their first fault, in `specs/`. There is no code here.
#![tactic(auto)]
