// Number, class and form of parts and goal, number and class of premises: refusal 13.
#![tactic(auto)]

pub mod formed;
pub mod forms;
pub mod premises;
