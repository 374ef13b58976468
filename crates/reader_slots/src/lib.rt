// Records in slots, each found by its key; so all records are numbered in one pass.
#![tactic(auto)]

pub mod numbers;
pub mod slots;
