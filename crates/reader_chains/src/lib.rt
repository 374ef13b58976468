// Links, items and parts of records by their place.
#![tactic(auto)]

pub mod chains;
pub mod parts;
