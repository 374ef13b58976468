// Equality of trees in constant time: records are numbered so that equal trees share a number.
#![tactic(auto)]

pub mod compare;
pub mod numbers;
