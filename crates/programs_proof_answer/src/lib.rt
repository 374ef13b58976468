// The line of the proof check's answer to two files.
#![tactic(auto)]

pub mod answer;
