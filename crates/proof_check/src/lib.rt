// The proof check: any two byte areas get the answer of the definition, as a number of nodes or a refusal.
#![tactic(auto)]

pub mod check;
mod start;
