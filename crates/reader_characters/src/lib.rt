// The bytes of a name through its records, and the characters that they spell.
#![tactic(auto)]

pub mod accents;
pub mod bytes;
pub mod characters;

// What was read, where there was `more`: a byte or a character. Behind it are left `count` bytes of a record, as one number, the low byte first, and the records
// from `after` on.
#[derive(Clone, Copy)]
pub struct Step {
    pub more: bool,
    pub value: usize,
    pub bytes: usize,
    pub count: usize,
    pub after: usize,
}
