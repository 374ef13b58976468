// What tells the trees of records from each other: keys, from tables of the numbers that equal trees share.
#![tactic(auto)]

pub mod keys;
pub mod shapes;
pub mod tables;

// What tells a record's tree from others: its kind, its atom, and what a table says of its parts.
#[derive(Clone, Copy, PartialEq, Eq)]
pub struct Key {
    pub kind: usize,
    pub atom: usize,
    pub first: usize,
    pub second: usize,
    pub third: usize,
}

// The records that a record's words refer to as parts of its tree, 0 for none.
#[derive(Clone, Copy)]
pub struct Parts {
    pub first: usize,
    pub second: usize,
    pub third: usize,
}
