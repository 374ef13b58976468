// The forms of what each rule needs and adds. Each table is a `match`, as the compiler would write a `const` array to the stack at each use.
// A rule has no name but its number.
ghost use Rattle.std.specs.Prelude.{◌≡◌};
ghost use Rattle.proof_rows.specs.Tables.{half, pair_in, need_forms, adds_in, add_forms, add_pair};

// The two needs of rule k, two hexadecimal digits each: 0 nothing, 1 ⊥, 2 ¬⊤, 3 ¬(u=t) of part t=u, 4 ¬(t=u) of parts 1 and 2, from 8 on twice a path, and 1 for ¬
// before it.
pub fn need_row(k: usize) -> u16
    ensures { pair_in result ≡ need_forms k }
{
    match k {
        32 => 0x01_00,
        33 => 0x02_00,
        34 => 0x08_09,
        35 => 0x08_00,
        36 => 0x08_03,
        37 => 0x00_00,
        38 => 0x08_00,
        39 => 0x08_00,
        40 => 0x08_00,
        41 => 0x08_00,
        42 => 0x08_00,
        43 => 0x08_00,
        44 => 0x08_00,
        45 => 0x08_00,
        46 => 0x68_00,
        _ => 0,
    }
}

// The two members of premise 0 and the two of premise 1 of rule k, two hexadecimal digits each.
fn add_row(k: usize) -> u32
    ensures { adds_in result ≡ add_forms k }
{
    match k {
        32 => 0x00_00_00_00,
        33 => 0x00_00_00_00,
        34 => 0x00_00_00_00,
        35 => 0x00_00_00_00,
        36 => 0x00_00_00_00,
        37 => 0x08_00_09_00,
        38 => 0x12_00_00_00,
        39 => 0x10_18_00_00,
        40 => 0x12_15_00_00,
        41 => 0x11_00_18_00,
        42 => 0x13_00_15_00,
        43 => 0x49_00_00_00,
        44 => 0x48_00_00_00,
        45 => 0x28_00_00_00,
        46 => 0x04_00_88_00,
        _ => 0,
    }
}

// The first or the last of two.
pub fn half(pair: u16, w: usize) -> u8
    ensures { result ≡ half pair w }
{
    if w == 0 {
        return (pair / 0x100) as u8;
    }
    (pair % 0x100) as u8
}

// The two members that premise b of rule k adds.
pub fn add_pair(k: usize, b: usize) -> u16
    ensures { pair_in result ≡ add_pair k b }
{
    if 2 <= b {
        return 0;
    }
    let row = add_row(k);
    if b == 0 {
        return (row / 0x10000) as u16;
    }
    (row % 0x10000) as u16
}
