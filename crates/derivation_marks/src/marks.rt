// Occurrence: is a constant in a tree? The records from the constant's on are marked first, each once, so that shared records are not visited again. The marks
// stand in the table of reaches, and are taken off again.
ghost use Rattle.std.specs.Prelude.{◌≡◌, ◌%◌, ◌<◌, ◌≤◌, length, get_or};
ghost use Rattle.reader.specs.Files.{words};
ghost use Rattle.reader.specs.Fetched.{RecordIs};
ghost use Rattle.reader.specs.Variables.{occurs};
ghost use Rattle.derivation_rules.specs.Erase.{bare_tree};
ghost use Rattle.derivation_trees.specs.Keys.{decoded, Normal};
ghost use Rattle.derivation_closedness.specs.Reaches.{Unmarked};
ghost use Rattle.derivation_marks.specs.Marks.{Marked, Changed, with_mark, without_mark, constant_at, part_marked};

use reader::kinds::Kind;
use reader::{Files, Record};
use reader_equality::keys::part_of;

// Is constant c in record x, by the marks of the records below n?
fn is_marked(files: &Files, reaches: &[u16], c: usize, n: usize, x: usize) -> bool
    requires { (n ≤ length reaches.now) × (x < n) × Marked (words files.now) c reaches.now n }
    ensures { result ≡ occurs c (bare_tree (words files.now) x) }
{
    if x < c {
        return false;
    }
    reaches[x] / 128 % 2 == 1
}

// Is constant c in part w of record j, whose words are x? Few words name a marked record: only of those it is asked whether they are parts.
fn part_marked(files: &Files, reaches: &[u16], c: usize, j: usize, x: Record, w: u8) -> bool
    requires { RecordIs (words files.now) j x × (w < 4) × (j ≤ length reaches.now) × Marked (words files.now) c reaches.now j }
    ensures { result ≡ part_marked (words files.now) c j w }
{
    let a = x.word_in(w);
    if j <= a {
        return false;
    }
    if !is_marked(files, reaches, c, j, a) {
        return false;
    }
    part_of(false, j, x, w) == a
}

// Is record j, whose kind is k, the constant c?
fn is_constant(files: &Files, c: usize, j: usize, k: usize) -> bool
    requires { k ≡ words files.now j 0 }
    ensures { result ≡ constant_at (words files.now) c j }
{
    if j != c {
        return false;
    }
    k == Kind::Constant as usize
}

// Is constant c in record j, by the marks of the smaller records? It is the record, or in a part of it. ⊤ has no parts and kind 22 none but its formula.
fn is_in(files: &Files, reaches: &[u16], c: usize, j: usize) -> bool
    requires { (j ≤ length reaches.now) × Marked (words files.now) c reaches.now j }
    ensures { result ≡ occurs c (bare_tree (words files.now) j) }
{
    if j == 0 {
        return false;
    }
    let x = files.record_at(j);
    if is_constant(files, c, j, x.kind) {
        return true;
    }
    if part_marked(files, reaches, c, j, x, 1) {
        return true;
    }
    if part_marked(files, reaches, c, j, x, 2) {
        return true;
    }
    part_marked(files, reaches, c, j, x, 3)
}

// The entry of record j with its mark.
fn marked_entry(files: &Files, reaches: &[u16], c: usize, j: usize) -> u16
    requires { (j < length reaches.now) × (get_or reaches.now j 0 % 256 < 128) × Marked (words files.now) c reaches.now j }
    ensures { result ≡ with_mark (words files.now) c j (get_or reaches.now j 0) }
{
    if is_in(files, reaches, c, j) {
        return reaches[j] + 128;
    }
    reaches[j]
}

// Marks the records from c on, below n, that constant c is in.
pub fn mark_all(files: &Files, reaches: &mut [u16], c: usize, n: usize)
    requires { (n ≤ length reaches.old) × Unmarked reaches.old }
    ensures { Marked (words files.now) c reaches.new n × Changed (with_mark (words files.now) c) c n reaches.old reaches.new }
{
    for j in c..n {
        reaches[j] = marked_entry(files, reaches, c, j);
    }
}

// Takes the marks of the records from c on, below n, off again.
// No loop in common with `mark_all`, no plainer: there a mark depends on those of the smaller records, here on the entry alone.
pub fn unmark_all(reaches: &mut [u16], c: usize, n: usize)
    requires { n ≤ length reaches.old }
    ensures { Changed without_mark c n reaches.old reaches.new }
{
    for i in c..n {
        reaches[i] -= 128 * (reaches[i] / 128 % 2);
    }
}

// Is constant c in the tree with this key, by the marks of all records that have keys?
pub fn key_marked(files: &Files, keys: &[usize], reaches: &[u16], c: usize, key: usize) -> bool
    requires { Normal (words files.now) (length keys.now) key × (length keys.now ≤ length reaches.now) × Marked (words files.now) c reaches.now (length keys.now) }
    ensures { result ≡ occurs c (decoded (words files.now) key) }
{
    let body = key % 262144;
    if body < 2 {
        return false;
    }
    is_marked(files, reaches, c, keys.len(), body - 1)
}
