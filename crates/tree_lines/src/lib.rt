// The lines of a listing, put behind what stands in a lent area.
#![tactic(auto)]

pub mod lines;
