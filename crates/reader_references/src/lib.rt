// The words of one record: ranges, references, chain lengths: refusals 4 to 6.
#![tactic(auto)]

pub mod ranges;
pub mod references;
