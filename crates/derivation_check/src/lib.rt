// The derivation check: any two byte areas get the four numbers of the definition.
#![tactic(auto)]

pub mod check;
