// The places of a file behind its header: records, roots, naming.
#![tactic(auto)]

pub mod bodies;
