// Typing of functions, of applications and of any record: refusal 10.
#![tactic(auto)]

mod applications;
pub mod records;
