//! The definitions of a field, of traces and of elements as numbers, in `specs/`. There is no code here.
#![tactic(auto)]
