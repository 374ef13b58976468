// Refusal 13 of a proof's nodes: number, class and form of parts, number and class of premises.
#![tactic(auto)]

pub mod premises;
pub mod shapes;
pub mod tables;
