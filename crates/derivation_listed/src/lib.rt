// The members of a sequent in a search tree, for the parts that BR2 keeps.
#![tactic(auto)]

pub mod filled;
pub mod listed;
