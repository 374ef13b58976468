// Types with type arguments put in, and the type variables of signatures.
#![tactic(auto)]

pub mod instances;
pub mod signatures;
