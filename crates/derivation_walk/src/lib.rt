// The walk over a derivation: a node, then its premises in chain order.
#![tactic(auto)]

pub mod walk;
