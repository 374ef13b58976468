// Reading of obligation, proof and derivation files: bytes, words, records, trees, and the places before the walk.
#![tactic(auto)]

ghost use Rattle.std.specs.Prelude.{ℕ, ◌<◌, ◌^◌};
ghost use Rattle.reader.specs.Words.{word};

pub mod chains;
pub mod kinds;
mod records;
pub mod refusals;
pub mod tests;
pub mod trees;
pub mod words;

// "The answer is refusal, file (1 or 2), record, nodes"; `at` is the record.
#[derive(Clone, Copy)]
pub struct Answer {
    pub refusal: usize,
    pub file: usize,
    pub at: usize,
    pub nodes: usize,
}

// Why two files are refused: refusals 1 to 19, in their order.
#[derive(Clone, Copy, PartialEq, Eq)]
pub enum Fault {
    Length,
    Header,
    Kind,
    Number,
    Reference,
    Chain,
    Weight,
    Spelling,
    Name,
    Typing,
    Root,
    Naming,
    Form,
    Member,
    Fit,
    Fresh,
    Room,
    Depth,
    Buffer,
}

// A fault, the file and the record that have it, and how many nodes were entered.
#[derive(Clone, Copy, PartialEq, Eq)]
pub struct Refusal {
    pub fault: Fault,
    pub file: usize,
    pub at: usize,
    pub nodes: usize,
}

// Both files, read through one numbering: records 1 to m stand in the obligation, m + 1 on in the second file. Each word has 32 bits.
#[derive(Clone, Copy)]
pub struct Files<'a> {
    pub obligation: &'a [u8],
    pub second: &'a [u8],
    pub m: usize,
    pub ghost small: { (i w : ℕ) → word obligation.now second.now m i w < 2 ^ 32 },
}

// The four words of one record.
#[derive(Clone, Copy)]
pub struct Record {
    pub kind: usize,
    pub a: usize,
    pub b: usize,
    pub c: usize,
}
