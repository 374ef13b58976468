// The parts that BR2 keeps, all tests in one run along their chain.
#![tactic(auto)]

pub mod kept;
mod order;
