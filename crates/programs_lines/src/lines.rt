// The line of an answer, written from its end: what is written stands before what was written.
ghost use Rattle.std.specs.Prelude.{◌≡◌, ◌∷◌, ◌++◌, ◌+◌, ◌≤◌, ◌<◌, length, take, drop};
ghost use Rattle.programs_lines.specs.Lines.{decimal, numbers_line, line, translation_line, EndsIn};

use reader::Answer;

// Writes a byte before place `end`; its place.
fn put_byte(out: &mut [u8], end: usize, byte: u8) -> usize
    requires { (0 < end) × (end ≤ length out.old) }
    ensures { (result + 1 ≡ end) × (drop result out.new ≡ byte ∷ drop end out.old) × (take result out.new ≡ take result out.old) }
{
    let at = end - 1;
    out[at] = byte;
    at
}

// Writes a number in decimal before place `end`; where it begins.
fn put_decimal(out: &mut [u8], end: usize, n: usize) -> usize
    requires { (20 ≤ end) × (end ≤ length out.old) }
    ensures { (result < end) × (end ≤ result + 20) × (drop result out.new ≡ decimal n ++ drop end out.old) × (take result out.new ≡ take result out.old) }
{
    let mut begin = end;
    let mut rest = n;
    while 10 <= rest {
        begin = put_byte(out, begin, b'0' + (rest % 10) as u8);
        rest = rest / 10;
    }
    put_byte(out, begin, b'0' + rest as u8)
}

// Writes a number in decimal and one byte more before place `end`; where the number begins.
fn put_number(out: &mut [u8], end: usize, n: usize, byte: u8) -> usize
    requires { (21 ≤ end) × (end ≤ length out.old) }
    ensures { (result < end) × (end ≤ result + 21) × (drop result out.new ≡ decimal n ++ (byte ∷ drop end out.old)) × (take result out.new ≡ take result out.old) }
{
    let end = put_byte(out, end, byte);
    put_decimal(out, end, n)
}

// Writes a line of four numbers at the end of the area; where it begins.
pub fn put_numbers(out: &mut [u8; 84], a: usize, b: usize, c: usize, d: usize) -> usize
    ensures { EndsIn 84 (numbers_line a b c d) out.old out.new result }
{
    let fourth = put_number(out, 84, d, b'\n');
    let third = put_number(out, fourth, c, b' ');
    let second = put_number(out, third, b, b' ');
    put_number(out, second, a, b' ')
}

// Writes the line of an answer at the end of the area; where it begins.
pub fn put_line(out: &mut [u8; 84], a: Answer) -> usize
    ensures { EndsIn 84 (line a) out.old out.new result }
{
    put_numbers(out, a.refusal, a.file, a.at, a.nodes)
}

// Writes the line of a translation's answer, with the derivation's length, at the end of the area; where it begins.
pub fn put_translation(out: &mut [u8; 105], a: Answer, bytes: usize) -> usize
    ensures { EndsIn 105 (translation_line a bytes) out.old out.new result }
{
    let fifth = put_number(out, 105, bytes, b'\n');
    let fourth = put_number(out, fifth, a.nodes, b' ');
    let third = put_number(out, fourth, a.at, b' ');
    let second = put_number(out, third, a.file, b' ');
    put_number(out, second, a.refusal, b' ')
}
