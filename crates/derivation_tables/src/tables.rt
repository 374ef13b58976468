// What the rules 64 to 80 ask and make, as a table.
// A rule has no name but its number.
ghost use Rattle.std.specs.Prelude.{◌≡◌, ◌+◌, ◌*◌, ◌<◌};
ghost use Rattle.derivation_tables.specs.Tables.{digit, digits, columns, column};

// Thirteen columns a rule: 0 shapes of the parts; 1 shape of the goal; 2 the most members that a premise adds; 3 form needed in the sequent;
// 4 and 5 goal of premise 0 and the member that it adds; 6 and 7 the same of premise 1; 8 and 9 two forms that are equal;
// 10 to 12 three forms, of which the first is the third with the second in place of index 0.
// Each is a `match`, as the compiler would write a `const` array to the stack at each use.

// Column 0 of rule k.
fn shapes(k: usize) -> usize
    ensures { result ≡ column k 0 }
{
    match k {
        64 => 0, // BR1
        65 => 0, // BR2
        66 => 0, // BR3
        67 => 37, // BR4
        68 => 0, // BR6
        69 => 17, // MP
        70 => 0, // R1
        71 => 16, // R2
        72 => 16, // R2'
        73 => 0, // R3
        74 => 17, // R4
        75 => 37, // R5
        76 => 37, // R6
        77 => 9479, // R7
        78 => 9235, // R8
        79 => 2429989, // R9
        80 => 0, // R10
        _ => 0,
    }
}

// Columns 1 to 7 of rule k, two hexadecimal digits each.
fn front(k: usize) -> usize
    ensures { digits result 7 ≡ columns k 1 7 }
{
    match k {
        64 => 0x00_00_04_00_00_00_00, // BR1
        65 => 0x00_00_00_04_00_00_00, // BR2
        66 => 0x00_00_04_00_00_00_00, // BR3
        67 => 0x00_01_00_08_00_04_08, // BR4
        68 => 0x4e_00_00_00_00_00_00, // BR6
        69 => 0x00_00_00_09_00_08_00, // MP
        70 => 0x10_00_00_05_00_06_00, // R1
        71 => 0x00_00_00_08_00_00_00, // R2
        72 => 0x00_00_00_08_00_00_00, // R2'
        73 => 0x11_01_00_06_05_00_00, // R3
        74 => 0x00_00_09_08_00_00_00, // R4
        75 => 0x00_01_00_08_07_0b_07, // R5
        76 => 0x12_01_00_08_05_0b_05, // R6
        77 => 0x13_00_00_0c_00_00_00, // R7
        78 => 0x00_00_00_08_00_00_00, // R8
        79 => 0x00_00_00_0c_00_10_00, // R9
        80 => 0x14_00_00_00_00_00_00, // R10
        _ => 0,
    }
}

// Columns 8 to 12 of rule k, two hexadecimal digits each.
fn back(k: usize) -> usize
    ensures { digits result 5 ≡ columns k 8 5 }
{
    match k {
        64 => 0x00_00_00_00_00, // BR1
        65 => 0x00_00_00_00_00, // BR2
        66 => 0x00_00_00_00_00, // BR3
        67 => 0x00_00_00_00_00, // BR4
        68 => 0x00_00_00_00_00, // BR6
        69 => 0x0a_04_00_00_00, // MP
        70 => 0x00_00_00_00_00, // R1
        71 => 0x09_04_00_00_00, // R2
        72 => 0x0a_04_00_00_00, // R2'
        73 => 0x00_00_00_00_00, // R3
        74 => 0x0a_04_00_00_00, // R4
        75 => 0x00_00_00_00_00, // R5
        76 => 0x00_00_00_00_00, // R6
        77 => 0x00_00_0c_08_06, // R7
        78 => 0x00_00_04_0c_0a, // R8
        79 => 0x00_00_10_0d_08, // R9
        80 => 0x05_06_00_00_00, // R10
        _ => 0,
    }
}

// The two hexadecimal digits of n that have 2 j digits after them.
fn digit(n: usize, j: usize) -> usize
    ensures { result ≡ digit n j }
{
    if j == 0 {
        return n % 0x100;
    }
    digit(n / 0x100, j - 1)
}

// Column w of rule k, 0 for no rule.
pub fn column(k: usize, w: usize) -> usize
    requires { w < 13 }
    ensures { result ≡ column k w }
{
    if w == 0 {
        return shapes(k);
    }
    if w < 8 {
        return digit(front(k), 7 - w);
    }
    digit(back(k), 12 - w)
}

// The form of the goal of premise b of rule k.
pub fn goal_of(k: usize, b: usize) -> usize
    requires { b < 2 }
    ensures { result ≡ column k (4 + 2 * b) }
{
    if b == 0 {
        return column(k, 4);
    }
    column(k, 6)
}

// The form of the member that it adds, 0 for none.
pub fn added_by(k: usize, b: usize) -> usize
    requires { b < 2 }
    ensures { result ≡ column k (5 + 2 * b) }
{
    if b == 0 {
        return column(k, 5);
    }
    column(k, 7)
}
