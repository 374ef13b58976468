// Closedness by look-up: how far the indices and the type variables of each record's tree reach, kept in a table.
#![tactic(auto)]

pub mod fill;
pub mod reaches;
pub mod tests;
