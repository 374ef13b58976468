// Is a tree without types another one with index 0 replaced?
#![tactic(auto)]

pub mod replace;
