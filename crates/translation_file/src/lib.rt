// The whole derivation that a proof is translated to, written into a buffer that the caller lends.
#![tactic(auto)]

pub mod derivation;
