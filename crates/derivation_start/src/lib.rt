// The start of a walk over a derivation: the root's frame.
#![tactic(auto)]

pub mod start;
