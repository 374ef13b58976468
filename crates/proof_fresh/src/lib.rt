// Is a constant in no member of the sequent? Refusal 16.
#![tactic(auto)]

pub mod fresh;
