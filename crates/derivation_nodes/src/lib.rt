// A derivation node's refusal, 13 to 18, and what its premises are to derive.
#![tactic(auto)]

pub mod nodes;
pub mod push;
