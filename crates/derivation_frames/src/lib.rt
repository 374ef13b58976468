// The sequents of a derivation, in a stack of frames; nodes and links of chains, fetched whole.
#![tactic(auto)]

pub mod frames;
pub mod links;

// A node of the derivation: its rule, the chain of its parts and the chain of its premises, each 0 for none.
#[derive(Clone, Copy)]
pub struct Node {
    pub kind: usize,
    pub parts: usize,
    pub premises: usize,
}

// A link of a chain: its item and the next link, 0 for none.
#[derive(Clone, Copy)]
pub struct Link {
    pub item: usize,
    pub next: usize,
}
