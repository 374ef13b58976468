// The set of known facts, made of the records of the goal and the members at a depth.
#![tactic(auto)]

pub mod gathered;
