// Closedness: how far the indices of a record's tree reach. A recursion over the parts of a record; a table in front of it remembers what was found, so that
// a test is one comparison. Entry i of the table is reach + 128 * mark + 256 * order of record i: of the marks see derivation_marks, of the order orders.rt.
ghost use Rattle.std.specs.Prelude.{false, ◌≡◌, ◌%◌, ◌<◌, ◌≤◌, ◌/◌, length, get_or};
ghost use Rattle.reader.specs.Files.{words};
ghost use Rattle.reader.specs.Variables.{indices_below};
ghost use Rattle.reader.specs.Fetched.{RecordIs};
ghost use Rattle.reader_closedness.specs.Reach.{own_reach, reach};
ghost use Rattle.derivation_rules.specs.Erase.{bare_tree};
ghost use Rattle.derivation_trees.specs.Keys.{decoded, Normal};
ghost use Rattle.derivation_closedness.specs.Reaches.{Indexed, Reached, Unmarked, EntryOf, part_reach};

use crate::orders::order_of;
use reader::kinds::Kind;
use reader::{Files, Record};
use reader_closedness::reaches::{larger, under};
use reader_equality::shapes;

// The reach that entry i of the table has.
fn known_reach(reaches: &[u16], i: usize) -> usize
    requires { i < length reaches.now }
    ensures { result ≡ get_or reaches.now i 0 % 128 }
{
    (reaches[i] % 128) as usize
}

// The order that the table has for record i, 0 where it has none.
pub fn known_order(reaches: &[u16], i: usize) -> usize
    ensures { result ≡ get_or reaches.now i 0 / 256 }
{
    if reaches.len() <= i {
        return 0;
    }
    (reaches[i] / 256) as usize
}

// Record i: its words are no larger than a word.
fn record_at(files: &Files, i: usize) -> Record
    ensures { RecordIs (words files.now) i result × (result.a < 4294967296) }
{
    files.record_at(i)
}

// How far a record, whose words are x, reaches for itself: a variable as far as its index.
fn own_reach(x: Record) -> usize
    requires { x.a < 4294967296 }
    ensures { result ≡ own_reach false x.kind x.a }
{
    if x.kind != Kind::BoundVariable as usize {
        return 0;
    }
    x.a + 1
}

// How far record i, whose words are x, reaches by its own index and its parts, which reach as far as a, b and c. ⊤ has no parts, and kind 22 none but its formula:
// so they come out as what they read as.
fn node_reach(files: &Files, i: usize, x: Record, a: usize, b: usize, c: usize) -> usize
    requires { (0 < i) × RecordIs (words files.now) i x × (x.a < 4294967296) × (a ≡ part_reach (words files.now) i 1) × (b ≡ part_reach (words files.now) i 2) × (c ≡ part_reach (words files.now) i 3) }
    ensures { result ≡ reach false (bare_tree (words files.now) i) }
{
    let own = own_reach(x);
    larger(own, larger(a, larger(under(false, x.kind, b), c)))
}

// How far record i reaches: as the table says, which has the records below n, or else as far as its parts, which are smaller records.
fn reach_of(files: &Files, reaches: &[u16], n: usize, i: usize) -> usize
    requires { (n ≤ length reaches.now) × Reached (words files.now) reaches.now n }
    ensures { result ≡ reach false (bare_tree (words files.now) i) }
{
    if i < n {
        return known_reach(reaches, i);
    }
    if i == 0 {
        return 0;
    }
    let x = record_at(files, i);
    let parts = shapes::parts_in(false, i, x);
    let a = reach_of(files, reaches, n, parts.first);
    let b = reach_of(files, reaches, n, parts.second);
    let c = reach_of(files, reaches, n, parts.third);
    node_reach(files, i, x, a, b, c)
}

// The same for a part: where the table has it, no call is made.
fn part_reach(files: &Files, reaches: &[u16], n: usize, i: usize) -> usize
    requires { (n ≤ length reaches.now) × Reached (words files.now) reaches.now n }
    ensures { result ≡ reach false (bare_tree (words files.now) i) }
{
    if i < n {
        return known_reach(reaches, i);
    }
    reach_of(files, reaches, n, i)
}

// The entry of record i, from a table that has the smaller records, its parts among them.
fn entry_of(files: &Files, reaches: &[u16], i: usize) -> u16
    requires { (i < length reaches.now) × Indexed (words files.now) (length reaches.now) × Reached (words files.now) reaches.now i }
    ensures { EntryOf (words files.now) i result }
{
    if i == 0 {
        return 0;
    }
    let x = record_at(files, i);
    let parts = shapes::parts_in(false, i, x);
    let a = part_reach(files, reaches, i, parts.first);
    let b = part_reach(files, reaches, i, parts.second);
    let c = part_reach(files, reaches, i, parts.third);
    let r = node_reach(files, i, x, a, b, c);
    let order = order_of(files, reaches, i, x, parts);
    (r + 256 * order) as u16
}

// Fills the table with the reaches and orders of all its records, whose indices are below 64; no mark is set.
pub fn reach_all(files: &Files, reaches: &mut [u16])
    requires { Indexed (words files.now) (length reaches.old) }
    ensures { Reached (words files.now) reaches.new (length reaches.new) × Unmarked reaches.new }
{
    for i in 0..reaches.len() {
        reaches[i] = entry_of(files, reaches, i);
    }
}

// The reach of the tree with this key.
pub fn reach_at(files: &Files, keys: &[usize], reaches: &[u16], key: usize) -> usize
    requires { Normal (words files.now) (length keys.now) key × (length keys.now ≤ length reaches.now) × Reached (words files.now) reaches.now (length reaches.now) }
    ensures { result ≡ reach false (decoded (words files.now) key) }
{
    let body = key % 262144;
    if body < 2 {
        return 0;
    }
    known_reach(reaches, body - 1)
}

// Is every index of the tree with this key below d, or bound in it?
pub fn is_below(files: &Files, keys: &[usize], reaches: &[u16], key: usize, d: usize) -> bool
    requires { Normal (words files.now) (length keys.now) key × (length keys.now ≤ length reaches.now) × Reached (words files.now) reaches.now (length reaches.now) }
    ensures { result ≡ indices_below d (decoded (words files.now) key) }
{
    reach_at(files, keys, reaches, key) <= d
}
