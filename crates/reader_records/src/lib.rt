// The first record with a fault: refusals 3 to 10.
#![tactic(auto)]

pub mod faults;
