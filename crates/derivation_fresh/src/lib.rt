// The constant of R7 is in neither the members nor the goal: refusal 16.
#![tactic(auto)]

pub mod fresh;
mod tops;
