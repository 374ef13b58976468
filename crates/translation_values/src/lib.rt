// What the records of a block refer to: where the blocks start and end, and what the cells of a template stand for at a node.
#![tactic(auto)]

pub mod ends;
pub mod values;
