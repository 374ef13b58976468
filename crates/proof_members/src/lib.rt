// The members of a sequent, kept as numbers in a lent memory: looked for and added.
#![tactic(auto)]

pub mod add;
pub mod keys;
pub mod search;
