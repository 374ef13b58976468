// Weights of records, in a table: refusal 7.
#![tactic(auto)]

pub mod weights;
