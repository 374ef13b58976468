// Facts about the trees of keys that were found, kept in a lent table so that they need not be found again.
#![tactic(auto)]

pub mod facts;
pub mod set;
