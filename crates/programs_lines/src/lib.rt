// The line of an answer, as the programs write it.
#![tactic(auto)]

pub mod lines;
