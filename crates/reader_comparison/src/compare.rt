// Comparison of records: kinds and atoms, and then the parts, each a smaller record. A table in front of the recursion remembers what was found: of
// the records below n it says the same where they are equal.
ghost use Rattle.std.specs.Prelude.{◌≡◌, ◌<◌, ◌≤◌, length};
ghost use Rattle.reader.specs.Files.{words};
ghost use Rattle.reader_comparison.specs.Compare.{has_both, same_from, same_records};

use reader::{Files, Record};
use reader_equality::keys;

// Has the table both records?
fn has_both(n: usize, i: usize, j: usize) -> bool
    ensures { result ≡ has_both n i j }
{
    if n <= i {
        return false;
    }
    j < n
}

// Are parts a and b equal? Most often they are one record, and no call is made.
#[cycle(same_at_same_part_same_records)]
fn same_part(files: &Files, table: &[usize], n: usize, a: usize, b: usize) -> bool
    requires { n ≤ length table.now }
    ensures { result ≡ same_from (words files.now) table.now n a b }
{
    if a == b {
        return true;
    }
    same_at(files, table, n, a, b)
}

// Have records i and j, neither of them 0, one kind, one atom and equal parts? Each is fetched once.
#[cycle(same_at_same_part_same_records)]
fn same_records(files: &Files, table: &[usize], n: usize, i: usize, j: usize) -> bool
    requires { (0 < i) × (n ≤ length table.now) }
    ensures { result ≡ same_records (words files.now) table.now n i j }
{
    let x = files.record_at(i);
    let y = files.record_at(j);
    if x.kind != y.kind {
        return false;
    }
    if keys::atom_of(i, x) != keys::atom_of(j, y) {
        return false;
    }
    let a = keys::part_of(true, i, x, 1);
    let b = keys::part_of(true, j, y, 1);
    if !same_part(files, table, n, a, b) {
        return false;
    }
    let c = keys::part_of(true, i, x, 2);
    let d = keys::part_of(true, j, y, 2);
    if !same_part(files, table, n, c, d) {
        return false;
    }
    let e = keys::part_of(true, i, x, 3);
    let f = keys::part_of(true, j, y, 3);
    same_part(files, table, n, e, f)
}

// Are records i and j equal?
#[cycle(same_at_same_part_same_records)]
pub fn same_at(files: &Files, table: &[usize], n: usize, i: usize, j: usize) -> bool
    requires { n ≤ length table.now }
    ensures { result ≡ same_from (words files.now) table.now n i j }
{
    if i == j {
        return true;
    }
    if has_both(n, i, j) {
        return table[i] == table[j];
    }
    if i == 0 {
        return false;
    }
    if j == 0 {
        return false;
    }
    same_records(files, table, n, i, j)
}
