// The walk over a proof: a node, then its premises in chain order.
#![tactic(auto)]

pub mod walk;
