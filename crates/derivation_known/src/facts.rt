// The facts of a table, found and kept. A fact has one row, which its numbers say; what stood there before is forgotten.
ghost use Rattle.std.specs.Prelude.{◌<◌};
ghost use Rattle.derivation_known.specs.Known.{KnownFits, KnownLacks, KeepsFits, KeepsLacks};

use crate::set;
use reader_equality::tables;

// The row that a sum says, of 2,048 and in a smaller table of 256. Any row would do.
fn row_of(length: usize, sum: usize) -> usize
    ensures { result < 2048 }
{
    let row = sum / 1048576;
    if length < 16384 {
        row % 256
    } else {
        row % 2048
    }
}

// The row of a fact on replacement.
fn fits_row(length: usize, x: usize, t: usize, j: usize, d: usize) -> usize
    ensures { result < 2048 }
{
    let a = x % 68719476736 * 28629151;
    let b = t % 68719476736 * 17345623;
    let c = j % 68719476736 * 31415927;
    let e = d % 68719476736 * 23571113;
    row_of(length, a + b + c + e)
}

// Has the table that the tree of key x is that of key j with that of key t in place of index d?
pub fn fits_known(known: &[usize], x: usize, t: usize, j: usize, d: usize) -> bool
    ensures { KnownFits known.now x t j d result }
{
    let at = 8 * fits_row(known.len(), x, t, j, d);
    if tables::entry_at(known, at) != x {
        return false;
    }
    if tables::entry_at(known, at + 1) != t {
        return false;
    }
    if tables::entry_at(known, at + 2) != j {
        return false;
    }
    tables::entry_at(known, at + 3) == d
}

// Puts the same into the table, where there is room.
pub fn keep_fits(known: &mut [usize], x: usize, t: usize, j: usize, d: usize)
    ensures { KeepsFits known.old known.new x t j d }
{
    let at = 8 * fits_row(known.len(), x, t, j, d);
    if known.len() < at + 4 {
        return;
    }
    known[at] = x;
    known[at + 1] = t;
    known[at + 2] = j;
    known[at + 3] = d;
}

// The row of a fact on a constant.
fn lacks_row(length: usize, c: usize, key: usize) -> usize
    ensures { result < 2048 }
{
    let a = c % 68719476736 * 17345623;
    let b = key % 68719476736 * 28629151;
    row_of(length, a + b)
}

// Is constant c not in the tree of the key by the set: has it the key's record, and not c?
fn set_lacks(known: &[usize], c: usize, key: usize) -> bool
    ensures { KnownLacks known.now c key result }
{
    let body = key % 262144;
    if body < 2 {
        return true;
    }
    if !set::is_held(known, body - 1) {
        return false;
    }
    !set::is_held(known, c)
}

// Has the table that constant c is not in the tree of the key?
pub fn lacks_known(known: &[usize], c: usize, key: usize) -> bool
    ensures { KnownLacks known.now c key result }
{
    if set_lacks(known, c, key) {
        return true;
    }
    let at = 8 * lacks_row(known.len(), c, key) + 4 + 2 * (key % 2);
    if tables::entry_at(known, at) != c {
        return false;
    }
    tables::entry_at(known, at + 1) == key
}

// Puts the same into the table, where there is room.
pub fn keep_lacks(known: &mut [usize], c: usize, key: usize)
    ensures { KeepsLacks known.old known.new c key }
{
    let at = 8 * lacks_row(known.len(), c, key) + 4 + 2 * (key % 2);
    if known.len() < at + 2 {
        return;
    }
    known[at] = c;
    known[at + 1] = key;
}
