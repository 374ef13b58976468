// Kinds of trees, and set and pair types.
ghost use Rattle.std.specs.Prelude.{◌≡◌, length};
ghost use Rattle.reader.specs.Files.{words};
ghost use Rattle.reader_equality.specs.Least.{Numbered};
ghost use Rattle.reader.specs.Trees.{tree, kind_of};
ghost use Rattle.reader_types.specs.SetsAndPairs.{is_set_of, is_pair_of, is_set_of_pair};

use reader::Files;
use reader::kinds::Kind;

// The kind of record i's tree: 0 for record 0.
pub fn tree_kind(files: &Files, i: usize) -> usize
    ensures { result ≡ kind_of (tree (words files.now) i) }
{
    if i == 0 {
        return 0;
    }
    files.word_at(i, 0)
}

// Is record s the set type of record x?
pub fn is_set_of(files: &Files, numbers: &[usize], s: usize, x: usize) -> bool
    requires { Numbered (words files.now) numbers.now (length numbers.now) }
    ensures { result ≡ is_set_of (words files.now) s x }
{
    if tree_kind(files, s) != Kind::SetType as usize {
        return false;
    }
    let element = files.lower_at(s, 1);
    reader_comparison::numbers::same_at(files, numbers, element, x)
}

// Is record p the pair type of records x and y?
pub fn is_pair_of(files: &Files, numbers: &[usize], p: usize, x: usize, y: usize) -> bool
    requires { Numbered (words files.now) numbers.now (length numbers.now) }
    ensures { result ≡ is_pair_of (words files.now) p x y }
{
    if tree_kind(files, p) != Kind::PairType as usize {
        return false;
    }
    let first = files.lower_at(p, 1);
    if !reader_comparison::numbers::same_at(files, numbers, first, x) {
        return false;
    }
    let last = files.lower_at(p, 2);
    reader_comparison::numbers::same_at(files, numbers, last, y)
}

// Is record s the set type of the pair type of records x and y?
pub fn is_set_of_pair(files: &Files, numbers: &[usize], s: usize, x: usize, y: usize) -> bool
    requires { Numbered (words files.now) numbers.now (length numbers.now) }
    ensures { result ≡ is_set_of_pair (words files.now) s x y }
{
    if tree_kind(files, s) != Kind::SetType as usize {
        return false;
    }
    let element = files.lower_at(s, 1);
    is_pair_of(files, numbers, element, x, y)
}
