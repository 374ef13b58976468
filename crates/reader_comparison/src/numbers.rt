// Records by the numbers of their trees: equal trees share a number, the least record that has the tree.
ghost use Rattle.std.specs.Prelude.{◌≡◌, ◌<◌, length};
ghost use Rattle.reader.specs.Files.{words};
ghost use Rattle.reader.specs.Trees.{tree, same};
ghost use Rattle.reader_equality.specs.Least.{least, Numbered};

use crate::compare;
use reader::Files;

// The number of record i.
pub fn number_of(files: &Files, table: &[usize], i: usize) -> usize
    requires { (i < length table.now) × Numbered (words files.now) table.now (length table.now) }
    ensures { result ≡ least (words files.now) i }
{
    table[i]
}

// Do records i and j stand for equal trees?
pub fn same_at(files: &Files, table: &[usize], i: usize, j: usize) -> bool
    requires { Numbered (words files.now) table.now (length table.now) }
    ensures { result ≡ same (tree (words files.now) i) (tree (words files.now) j) }
{
    compare::same_at(files, table, table.len(), i, j)
}
