// Is a tree among the sequent's members, or the only one?
#![tactic(auto)]

pub mod members;
