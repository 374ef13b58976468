// The templates of the translation as numbers.
#![tactic(auto)]

pub mod lines;
