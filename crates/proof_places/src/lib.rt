// Have the places of index 0 in a record one type? What has no index is passed at once. What is found of a record at the depth of its last index is
// remembered in a lent table, and it is not walked twice there.
#![tactic(auto)]

ghost use Rattle.std.specs.Prelude.{◌≡◌, ◌+◌, ◌<◌, ◌≤◌, length};
ghost use Rattle.reader.specs.Files.{words};
ghost use Rattle.reader.specs.Trees.{tree};
ghost use Rattle.reader.specs.Variables.{bears};
ghost use Rattle.reader_closedness.specs.Reaches.{Reached};
ghost use Rattle.reader_equality.specs.Least.{Numbered};
ghost use Rattle.reader_equality.specs.Tables.{Zeros};
ghost use Rattle.proof_places.specs.Borne.{Borne};
ghost use Rattle.proof_places.specs.Places.{bears_at, bears_child};

use proof_replacement::{deeper_at, is_index, reach_of};
use reader::Files;
use reader_comparison::numbers;
use reader_equality::tables;

// Does every occurrence of index d in what word w of record i refers to bear type t?
#[cycle(bears_at_bears_child_bears_open)]
fn bears_child(
    files: &Files,
    numbers: &[usize],
    reaches: &[usize],
    seen: &mut [usize],
    i: usize,
    t: usize,
    d: usize,
    w: u8,
) -> bool
    requires { (0 < i) × (d + i ≤ 18446744073709551616) × Numbered (words files.now) numbers.now (length numbers.now) × Reached (words files.now) reaches.now (length reaches.now) × Borne (words files.now) t seen.old }
    ensures { (result ≡ bears_child (words files.now) i t d w) × Borne (words files.now) t seen.new }
{
    let x = files.child_at(i, w);
    bears_at(files, numbers, reaches, seen, x, t, d)
}

// The same for a record i that is not 0, whatever is remembered of it.
#[cycle(bears_at_bears_child_bears_open)]
fn bears_open(
    files: &Files,
    numbers: &[usize],
    reaches: &[usize],
    seen: &mut [usize],
    i: usize,
    t: usize,
    d: usize,
) -> bool
    requires { (0 < i) × (d + i < 18446744073709551616) × Numbered (words files.now) numbers.now (length numbers.now) × Reached (words files.now) reaches.now (length reaches.now) × Borne (words files.now) t seen.old }
    ensures { (result ≡ bears_at (words files.now) i t d) × Borne (words files.now) t seen.new }
{
    if is_index(files, i, d) {
        let u = files.child_at(i, 2);
        return numbers::same_at(files, numbers, u, t);
    }
    if !bears_child(files, numbers, reaches, seen, i, t, d, 1) {
        return false;
    }
    let e = deeper_at(files, i, d);
    if !bears_child(files, numbers, reaches, seen, i, t, e, 2) {
        return false;
    }
    bears_child(files, numbers, reaches, seen, i, t, d, 3)
}

// Does every occurrence of index d in record i bear type t?
#[cycle(bears_at_bears_child_bears_open)]
fn bears_at(
    files: &Files,
    numbers: &[usize],
    reaches: &[usize],
    seen: &mut [usize],
    i: usize,
    t: usize,
    d: usize,
) -> bool
    requires { (d + i < 18446744073709551616) × Numbered (words files.now) numbers.now (length numbers.now) × Reached (words files.now) reaches.now (length reaches.now) × Borne (words files.now) t seen.old }
    ensures { (result ≡ bears_at (words files.now) i t d) × Borne (words files.now) t seen.new }
{
    let r = reach_of(files, reaches, i);
    if r <= d {
        return true;
    }
    if r - 1 != d {
        return bears_open(files, numbers, reaches, seen, i, t, d);
    }
    if tables::entry_at(seen, i) != 0 {
        return true;
    }
    if !bears_open(files, numbers, reaches, seen, i, t, d) {
        return false;
    }
    tables::store(seen, i, 1);
    true
}

// Does every occurrence of index 0 in record i bear type t? The table is scratch, zeros before and zeros again.
pub fn bears(
    files: &Files,
    numbers: &[usize],
    reaches: &[usize],
    seen: &mut [usize],
    i: usize,
    t: usize,
) -> bool
    requires { Numbered (words files.now) numbers.now (length numbers.now) × Reached (words files.now) reaches.now (length reaches.now) × Zeros seen.old }
    ensures { (result ≡ bears 0 (tree (words files.now) t) (tree (words files.now) i)) × Zeros seen.new }
{
    // A record without an index leaves the table as it is, and there is nothing to clear.
    if reach_of(files, reaches, i) == 0 {
        return true;
    }
    let r = bears_at(files, numbers, reaches, seen, i, t, 0);
    seen.fill(0);
    r
}
