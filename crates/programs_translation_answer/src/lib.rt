// The translation of two files, and the line of its answer.
#![tactic(auto)]

pub mod answer;
