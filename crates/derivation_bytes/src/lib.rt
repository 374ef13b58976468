// One byte for each derivation rule: its high half is the number of parts, its low half the number of premises, 15 a number that varies. The table is a `match`, as the compiler would write
// a `const` array to the stack at each use. Refusal 13 reads a node's byte once and then both halves of it: so the compiler keeps the bytes as they are, and makes no table for each half.
// A rule has no name but its number.
#![tactic(auto)]

ghost use Rattle.std.specs.Prelude.{◌≡◌};
ghost use Rattle.derivation_bytes.specs.Bytes.{derivation_byte};

// The byte of derivation rule k, 0 for a kind that is none.
pub fn derivation_byte(k: usize) -> u8
    ensures { result ≡ derivation_byte k }
{
    match k {
        64 => 0x00, // BR1
        65 => 0xf1, // BR2
        66 => 0x00, // BR3
        67 => 0x12, // BR4
        68 => 0x00, // BR6
        69 => 0x12, // MP
        70 => 0x02, // R1
        71 => 0x11, // R2
        72 => 0x11, // R2'
        73 => 0x01, // R3
        74 => 0x11, // R4
        75 => 0x12, // R5
        76 => 0x12, // R6
        77 => 0x21, // R7
        78 => 0x21, // R8
        79 => 0x32, // R9
        80 => 0x00, // R10
        _ => 0,
    }
}
