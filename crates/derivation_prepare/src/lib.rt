// What comes before the walk of a derivation: the reading of both files, and the table of keys.
#![tactic(auto)]

pub mod prepare;
