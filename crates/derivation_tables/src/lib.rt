// What the rules 64 to 80 ask and make, as a table.
#![tactic(auto)]

pub mod tables;
