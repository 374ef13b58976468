// Places 1 to 12 of an obligation and a proof or derivation.
#![tactic(auto)]

pub mod places;
