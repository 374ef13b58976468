// What the rules 32 to 46 need in the sequent and what their premises add, as tables over the parts of a node.
#![tactic(auto)]

pub mod adds;
pub mod forms;
pub mod needs;
pub mod paths;
pub mod tables;
