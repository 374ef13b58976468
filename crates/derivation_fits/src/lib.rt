// Letters, replacement and closedness: refusal 15.
#![tactic(auto)]

pub mod fits;
