// Refusal 7: weight. Weights of smaller records stand in a table, up to 65,535 each, so that shared records are weighed once.
ghost use Rattle.std.specs.Prelude.{◌≡◌, ◌<◌, ◌≤◌, min, length, get_or};
ghost use Rattle.reader.specs.Files.{words};
ghost use Rattle.reader.specs.Kinds.{layout, class_at};
ghost use Rattle.reader.specs.KindLaws.{unpacked};
ghost use Rattle.reader.specs.Trees.{tree};
ghost use Rattle.reader.specs.Weight.{weight};
ghost use Rattle.reader.specs.Records.{most_weight, weight_fits};
ghost use Rattle.reader.specs.Fetched.{RecordIs};
ghost use Rattle.reader_weights.specs.Weights.{part_by, class_weighed, class_weight, capped, Filled};

use reader::kinds::{Class, Kind, Mode, Role};
use reader::{Files, Record, kinds};

// Entry j of the table.
fn entry(table: &[u16], j: usize) -> usize
    requires { j < length table.now }
    ensures { (result ≡ get_or table.now j 0) × (result < 65536) }
{
    table[j] as usize
}

// At most 65,535.
fn cap(x: usize) -> usize
    ensures { result ≡ min x 65535 }
{
    if x < 65535 { x } else { 65535 }
}

// Has a record of class c a weight?
fn is_weighed(c: u8) -> bool
    ensures { result ≡ class_weighed c }
{
    if c == Class::Type as u8 {
        return true;
    }
    if c == Class::Term as u8 {
        return true;
    }
    if c == Class::Formula as u8 {
        return true;
    }
    if c == Class::ForAllTypes as u8 {
        true
    } else {
        false
    }
}

// What a record of class c weighs without its parts.
fn own_weight(c: u8) -> usize
    ensures { result ≡ class_weight c }
{
    if is_weighed(c) { 1 } else { 0 }
}

// The part of record i that its word a names in this role, 0 for none.
fn part_in(role: u8, i: usize, a: usize) -> usize
    ensures { result ≡ part_by role i a }
{
    if role < Role::Item as u8 {
        return 0;
    }
    if a < i { a } else { 0 }
}

// The weight of the part of record i that its word a names in this role.
fn part_weight(files: &Files, table: &[u16], i: usize, role: u8, a: usize) -> usize
    requires { (0 < i) × (i ≤ length table.now) × Filled (words files.now) table.now i }
    ensures { (result ≡ capped (weight (tree (words files.now) (part_by role i a)))) × (result < 65536) }
{
    entry(table, part_in(role, i, a))
}

// The weight of record i, whose words are x and whose kind has this row, from the table of the smaller records' weights.
pub fn weigh(files: &Files, table: &[u16], i: usize, x: Record, row: u32) -> usize
    requires { (0 < i) × (i ≤ length table.now) × Filled (words files.now) table.now i × RecordIs (words files.now) i x × (unpacked row ≡ layout x.kind) }
    ensures { result ≡ capped (weight (tree (words files.now) i)) }
{
    let a = part_weight(files, table, i, kinds::first_in(row), x.a);
    let b = part_weight(files, table, i, kinds::second_in(row), x.b);
    let c = part_weight(files, table, i, kinds::third_in(row), x.c);
    let all = cap(own_weight(kinds::class_in(row)) + a + b + c);
    // A constant weighs 1, whatever its type. That is chosen last, so that the row stays one look-up for the compiler.
    if x.kind == Kind::Constant as usize {
        1
    } else {
        all
    }
}

fn most_weight(mode: u8) -> usize
    ensures { result ≡ most_weight mode }
{
    if mode == Mode::Derivation as u8 {
        16384
    } else {
        4096
    }
}

// Is the weight w of record i, whose class is c, within the limit?
pub fn weight_fits(files: &Files, mode: u8, i: usize, c: u8, w: usize) -> bool
    requires { (c ≡ class_at (words files.now) i) × (w ≡ capped (weight (tree (words files.now) i))) }
    ensures { result ≡ weight_fits mode (words files.now) i }
{
    if w <= most_weight(mode) {
        return true;
    }
    !is_weighed(c)
}
