// Replacement: is a record what another one is with index 0 replaced? What has no index to replace is compared at once. What is found of a record at the depth of its last index is remembered in a lent table, and it is not walked twice there.
#![tactic(auto)]

ghost use Rattle.std.specs.Prelude.{◌≡◌, false, ◌+◌, ◌<◌, ◌≤◌, length};
ghost use Rattle.reader.specs.Files.{words};
ghost use Rattle.reader.specs.Trees.{tree, same};
ghost use Rattle.reader.specs.Variables.{replaced};
ghost use Rattle.reader_closedness.specs.Reach.{reach};
ghost use Rattle.reader_closedness.specs.Reaches.{Reached};
ghost use Rattle.reader_equality.specs.Least.{Numbered};
ghost use Rattle.reader_equality.specs.Tables.{Zeros};
ghost use Rattle.proof_replacement.specs.Fits.{index_at, deeper, fits, fits_child};
ghost use Rattle.proof_replacement.specs.Remembered.{Remembered};

use reader::kinds::Kind;
use reader::{Files, trees};
use reader_closedness::reaches::reach_at;
use reader_comparison::numbers;
use reader_equality::tables;

// How far the indices of record i reach: one more than its last index that is not bound in it, 0 where there is none.
pub fn reach_of(files: &Files, reaches: &[usize], i: usize) -> usize
    requires { Reached (words files.now) reaches.now (length reaches.now) }
    ensures { result ≡ reach false (tree (words files.now) i) }
{
    reach_at(files, reaches, reaches.len() / 2, false, i)
}

// Is record j the bound variable with index d?
pub fn is_index(files: &Files, j: usize, d: usize) -> bool
    ensures { result ≡ index_at (words files.now) j d }
{
    if files.word_at(j, 0) != Kind::BoundVariable as usize {
        return false;
    }
    files.atom_at(j) == d
}

// The index that stands for d below word 2 of record j.
pub fn deeper_at(files: &Files, j: usize, d: usize) -> usize
    requires { d < 18446744073709551615 }
    ensures { (result ≡ deeper (words files.now) j d) × (result ≤ d + 1) }
{
    if files.word_at(j, 0) == Kind::ForAll as usize {
        d + 1
    } else {
        d
    }
}

// Does what word w of record i refers to fit what word w of record j does?
#[cycle(fits_at_fits_child_fits_open)]
fn fits_child(
    files: &Files,
    numbers: &[usize],
    reaches: &[usize],
    seen: &mut [usize],
    i: usize,
    j: usize,
    t: usize,
    d: usize,
    w: u8,
) -> bool
    requires { (0 < j) × (d + j ≤ 18446744073709551616) × Numbered (words files.now) numbers.now (length numbers.now) × Reached (words files.now) reaches.now (length reaches.now) × Remembered (words files.now) t seen.old }
    ensures { (result ≡ fits_child (words files.now) i j t d w) × Remembered (words files.now) t seen.new }
{
    let x = files.child_at(i, w);
    let y = files.child_at(j, w);
    fits_at(files, numbers, reaches, seen, x, y, t, d)
}

// The same for a record j that is not 0, whatever is remembered of it.
#[cycle(fits_at_fits_child_fits_open)]
fn fits_open(
    files: &Files,
    numbers: &[usize],
    reaches: &[usize],
    seen: &mut [usize],
    i: usize,
    j: usize,
    t: usize,
    d: usize,
) -> bool
    requires { (0 < j) × (d + j < 18446744073709551616) × Numbered (words files.now) numbers.now (length numbers.now) × Reached (words files.now) reaches.now (length reaches.now) × Remembered (words files.now) t seen.old }
    ensures { (result ≡ fits (words files.now) i j t d) × Remembered (words files.now) t seen.new }
{
    if is_index(files, j, d) {
        return numbers::same_at(files, numbers, i, t);
    }
    if i == 0 {
        return false;
    }
    if !trees::same_head(files, i, j) {
        return false;
    }
    if !fits_child(files, numbers, reaches, seen, i, j, t, d, 1) {
        return false;
    }
    let e = deeper_at(files, j, d);
    if !fits_child(files, numbers, reaches, seen, i, j, t, e, 2) {
        return false;
    }
    fits_child(files, numbers, reaches, seen, i, j, t, d, 3)
}

// Is record i what record j is with record t in place of index d?
#[cycle(fits_at_fits_child_fits_open)]
fn fits_at(
    files: &Files,
    numbers: &[usize],
    reaches: &[usize],
    seen: &mut [usize],
    i: usize,
    j: usize,
    t: usize,
    d: usize,
) -> bool
    requires { (d + j < 18446744073709551616) × Numbered (words files.now) numbers.now (length numbers.now) × Reached (words files.now) reaches.now (length reaches.now) × Remembered (words files.now) t seen.old }
    ensures { (result ≡ fits (words files.now) i j t d) × Remembered (words files.now) t seen.new }
{
    let reach = reach_of(files, reaches, j);
    if reach <= d {
        return numbers::same_at(files, numbers, i, j);
    }
    if reach - 1 != d {
        return fits_open(files, numbers, reaches, seen, i, j, t, d);
    }
    let x = tables::entry_at(seen, j);
    if x != 0 {
        return numbers::same_at(files, numbers, i, x);
    }
    if !fits_open(files, numbers, reaches, seen, i, j, t, d) {
        return false;
    }
    tables::store(seen, j, i);
    true
}

// "B(t) is B with index 0 replaced": is record i record j with record t in place of index 0? The table is scratch, zeros before and zeros again.
pub fn is_replaced(
    files: &Files,
    numbers: &[usize],
    reaches: &[usize],
    seen: &mut [usize],
    i: usize,
    t: usize,
    j: usize,
) -> bool
    requires { Numbered (words files.now) numbers.now (length numbers.now) × Reached (words files.now) reaches.now (length reaches.now) × Zeros seen.old }
    ensures { (result ≡ same (tree (words files.now) i) (replaced 0 (tree (words files.now) t) (tree (words files.now) j))) × Zeros seen.new }
{
    // A record without an index leaves the table as it is, and there is nothing to clear.
    if reach_of(files, reaches, j) == 0 {
        return numbers::same_at(files, numbers, i, j);
    }
    let r = fits_at(files, numbers, reaches, seen, i, j, t, 0);
    seen.fill(0);
    r
}
