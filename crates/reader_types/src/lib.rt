// Types of terms, set and pair types, and the typing of each kind of record but functions and applications.
#![tactic(auto)]

pub mod shapes;
pub mod types;
