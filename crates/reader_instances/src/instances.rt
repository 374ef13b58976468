// Types with type arguments put in. With the type arguments of one application a record of its signature is one tree: a record that fits it is
// remembered in a lent table, and no record of a signature is walked twice.
ghost use Rattle.std.specs.Prelude.{◌≡◌, ◌<◌, length, drop};
ghost use Rattle.reader.specs.Files.{words};
ghost use Rattle.reader.specs.Trees.{tree, same};
ghost use Rattle.reader.specs.Chains.{item_trees};
ghost use Rattle.reader.specs.Variables.{instance};
ghost use Rattle.reader_equality.specs.Least.{Numbered};
ghost use Rattle.reader_equality.specs.Tables.{Zeros};
ghost use Rattle.reader_instances.specs.Instances.{fits, fits_variable, fits_child, fits_parts, Remembered};

use reader::kinds::Kind;
use reader::{Files, trees};
use reader_chains::chains;
use reader_equality::tables;

// Is record i what the type variable j stands for, an item of chain c, or j itself past its end?
fn fits_variable(files: &Files, numbers: &[usize], i: usize, j: usize, c: usize) -> bool
    requires { Numbered (words files.now) numbers.now (length numbers.now) }
    ensures { result ≡ fits_variable (words files.now) i j c }
{
    let a = files.word_at(j, 1);
    let l = chains::link_at(files, c, a);
    if l == 0 {
        return reader_comparison::numbers::same_at(files, numbers, i, j);
    }
    let item = files.lower_at(l, 1);
    reader_comparison::numbers::same_at(files, numbers, i, item)
}

// Does what word w of record i refers to fit what word w of record j does?
#[cycle(fits_at_fits_child_fits_parts)]
fn fits_child(
    files: &Files,
    numbers: &[usize],
    seen: &mut [usize],
    i: usize,
    j: usize,
    c: usize,
    w: u8,
) -> bool
    requires { (0 < j) × Numbered (words files.now) numbers.now (length numbers.now) × Remembered (words files.now) c seen.old }
    ensures { (result ≡ fits_child (words files.now) i j c w) × Remembered (words files.now) c seen.new }
{
    let x = files.child_at(i, w);
    let y = files.child_at(j, w);
    fits_at(files, numbers, seen, x, y, c)
}

// Have records i and j, which is no type variable, one head, and do the parts of i fit those of j?
#[cycle(fits_at_fits_child_fits_parts)]
fn fits_parts(
    files: &Files,
    numbers: &[usize],
    seen: &mut [usize],
    i: usize,
    j: usize,
    c: usize,
) -> bool
    requires { (0 < j) × Numbered (words files.now) numbers.now (length numbers.now) × Remembered (words files.now) c seen.old }
    ensures { (result ≡ fits_parts (words files.now) i j c) × Remembered (words files.now) c seen.new }
{
    if !trees::same_head(files, i, j) {
        return false;
    }
    if !fits_child(files, numbers, seen, i, j, c, 1) {
        return false;
    }
    if !fits_child(files, numbers, seen, i, j, c, 2) {
        return false;
    }
    fits_child(files, numbers, seen, i, j, c, 3)
}

// Is record i what record j is with the items of chain c in place of its type variables?
#[cycle(fits_at_fits_child_fits_parts)]
pub fn fits_at(
    files: &Files,
    numbers: &[usize],
    seen: &mut [usize],
    i: usize,
    j: usize,
    c: usize,
) -> bool
    requires { Numbered (words files.now) numbers.now (length numbers.now) × Remembered (words files.now) c seen.old }
    ensures { (result ≡ fits (words files.now) i j c) × Remembered (words files.now) c seen.new }
{
    if j == 0 {
        return i == 0;
    }
    let x = tables::entry_at(seen, j);
    if x != 0 {
        return reader_comparison::numbers::same_at(files, numbers, i, x);
    }
    if files.word_at(j, 0) == Kind::TypeVariable as usize {
        return fits_variable(files, numbers, i, j, c);
    }
    if i == 0 {
        return false;
    }
    if !fits_parts(files, numbers, seen, i, j, c) {
        return false;
    }
    tables::store(seen, j, i);
    true
}

// The same with the items of chain c after its first: an application's own type stands before its type arguments. The table is scratch:
// zeros before, and zeros again.
pub fn same_instance(
    files: &Files,
    numbers: &[usize],
    seen: &mut [usize],
    i: usize,
    j: usize,
    c: usize,
) -> bool
    requires { Numbered (words files.now) numbers.now (length numbers.now) × Zeros seen.old }
    ensures { (result ≡ same (tree (words files.now) i) (instance (drop 1 (item_trees (words files.now) c)) (tree (words files.now) j))) × Zeros seen.new }
{
    let types = files.lower_at(c, 3);
    let r = fits_at(files, numbers, seen, i, j, types);
    seen.fill(0);
    r
}
