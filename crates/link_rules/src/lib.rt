//! The definitions of what a wire tells of its link, and a shelf of its contents, in `specs/`. There is no code here.
#![tactic(auto)]
