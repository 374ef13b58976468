// Down a path of records, what is left to compare of a tree and another one with an index replaced.
#![tactic(auto)]

pub mod paths;

// What is left to compare: the keys of the instance and of the body, and the index that is replaced there.
#[derive(Clone, Copy)]
pub struct Left {
    pub whole: usize,
    pub body: usize,
    pub depth: usize,
}
