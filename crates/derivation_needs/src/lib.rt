// What a rule needs in the sequent: refusal 14.
#![tactic(auto)]

pub mod needs;
