// The four numbers of an answer in the bits of one.
#![tactic(auto)]

pub mod packed;
