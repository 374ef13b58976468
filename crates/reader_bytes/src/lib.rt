// The halves of a rule's byte: the number of parts and the number of premises, 15 for a number that varies.
#![tactic(auto)]

ghost use Rattle.std.specs.Prelude.{◌≡◌};
ghost use Rattle.reader_bytes.specs.Bytes.{parts_of, premises_of};

// The number of parts that a rule's byte has, 15 where it varies.
pub fn parts_of(byte: u8) -> usize
    ensures { result ≡ parts_of byte }
{
    (byte / 16) as usize
}

// The number of premises that a rule's byte has.
pub fn premises_of(byte: u8) -> usize
    ensures { result ≡ premises_of byte }
{
    (byte % 16) as usize
}
