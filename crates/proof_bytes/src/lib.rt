// One byte for each proof rule: its high half is the number of parts, its low half the number of premises, 15 a number that varies. The table is a `match`, as the compiler would write
// a `const` array to the stack at each use. Refusal 13 reads a node's byte once and then both halves of it: so the compiler keeps the bytes as they are, and makes no table for each half.
// A rule has no name but its number.
#![tactic(auto)]

ghost use Rattle.std.specs.Prelude.{◌≡◌};
ghost use Rattle.proof_bytes.specs.Bytes.{proof_byte};

// The byte of proof rule k, 0 for a kind that is none.
pub fn proof_byte(k: usize) -> u8
    ensures { result ≡ proof_byte k }
{
    match k {
        32 => 0x00,
        33 => 0x00,
        34 => 0x10,
        35 => 0x10,
        36 => 0x10,
        37 => 0x12,
        38 => 0x11,
        39 => 0x11,
        40 => 0x11,
        41 => 0x12,
        42 => 0x12,
        43 => 0x31,
        44 => 0x31,
        45 => 0xf1,
        46 => 0x52,
        _ => 0,
    }
}
