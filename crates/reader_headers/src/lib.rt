// Lengths, headers and the roots that a header names: refusals 1, 2 and 11.
#![tactic(auto)]

pub mod headers;
pub mod roots;
