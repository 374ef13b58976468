// The table that has the key of each record.
#![tactic(auto)]

pub mod fill;
