// How far the indices of trees without types reach, and in which order the parts of a tree are best visited.
#![tactic(auto)]

pub mod closed;
mod orders;
