// What the rules 32 to 46 say of the shapes of parts, as a table. It is a `match`, as the compiler would write a `const` array to the stack at each use.
// A rule has no name but its number.
ghost use Rattle.std.specs.Prelude.{◌≡◌};
ghost use Rattle.proof_forms.specs.Tables.{shape_code};

// The shapes of the parts of rule k, none for 45, whose parts its first part counts. A byte for each part, the first's lowest: a kind, 32 and a class, or 64 and
// what stands under a ¬.
pub fn shape_code(k: usize) -> usize
    ensures { result ≡ shape_code k }
{
    match k {
        32 => 0,
        33 => 0,
        34 => 37,
        35 => 84,
        36 => 20,
        37 => 37,
        38 => 165,
        39 => 16,
        40 => 81,
        41 => 17,
        42 => 80,
        43 => 2426707,
        44 => 2434067,
        45 => 0,
        46 => 159536915493,
        _ => 0,
    }
}
