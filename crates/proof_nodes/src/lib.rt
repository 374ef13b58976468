// A proof node's refusal: 13 to 17.
#![tactic(auto)]

pub mod nodes;
