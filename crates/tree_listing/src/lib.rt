// The listing of a proof: its nodes in walk order, and the whole text for two byte areas.
#![tactic(auto)]

pub mod listing;
mod nodes;
