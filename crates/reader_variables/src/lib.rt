// Bound variables and type variables in the trees of records: closedness, and the types of places.
#![tactic(auto)]

pub mod variables;
