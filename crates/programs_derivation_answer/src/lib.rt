// The line of the derivation check's answer to two files.
#![tactic(auto)]

pub mod answer;
