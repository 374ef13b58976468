// How far a tree's variables reach: its type variables, or else its indices. A recursion over the parts of a record; a table in front of it
// remembers what was found.
ghost use Rattle.std.specs.Prelude.{◌≡◌, ◌+◌, ◌*◌, ◌-◌, ◌<◌, ◌≤◌, length, get_or};
ghost use Rattle.reader.specs.Files.{words};
ghost use Rattle.reader.specs.Trees.{atom, tree};
ghost use Rattle.reader_closedness.specs.Reach.{larger, variable, crossed, own_reach, reach};
ghost use Rattle.reader_closedness.specs.Reaches.{Reached, entry_of};

use reader::Files;
use reader::kinds::Kind;
use reader_equality::keys::part_of;

pub fn larger(a: usize, b: usize) -> usize
    ensures { result ≡ larger a b }
{
    if a < b { b } else { a }
}

// What is left of a second part's reach above a node of kind k.
pub fn under(types: bool, k: usize, y: usize) -> usize
    ensures { result ≡ y - crossed types k }
{
    if types {
        return y;
    }
    if k != Kind::ForAll as usize {
        return y;
    }
    if y == 0 {
        return 0;
    }
    y - 1
}

// Word 1 of record i: it is no larger than a word.
fn index_at(files: &Files, i: usize) -> usize
    ensures { (result ≡ words files.now i 1) × (result < 4294967296) }
{
    files.word_at(i, 1)
}

// The kind of a variable.
pub fn variable(types: bool) -> usize
    ensures { result ≡ variable types }
{
    if types {
        Kind::TypeVariable as usize
    } else {
        Kind::BoundVariable as usize
    }
}

// What record i, whose kind is k, reaches for itself.
pub fn own_reach(files: &Files, types: bool, i: usize, k: usize) -> usize
    requires { k ≡ words files.now i 0 }
    ensures { result ≡ own_reach types k (atom (words files.now) i) }
{
    if k != variable(types) {
        return 0;
    }
    index_at(files, i) + 1
}

// What the table says of record i.
pub fn entry_of(reaches: &[usize], types: bool, i: usize) -> usize
    requires { 2 * i + 1 < length reaches.now }
    ensures { result ≡ get_or reaches.now (entry_of types i) 0 }
{
    if types {
        reaches[2 * i + 1]
    } else {
        reaches[2 * i]
    }
}

// How far record a reaches: most often the table has it, and no call is made.
#[cycle(known_reach_reach_at)]
pub fn known_reach(files: &Files, reaches: &[usize], n: usize, types: bool, a: usize) -> usize
    requires { (2 * n ≤ length reaches.now) × Reached (words files.now) reaches.now (2 * n) }
    ensures { result ≡ reach types (tree (words files.now) a) }
{
    if a < n {
        return entry_of(reaches, types, a);
    }
    reach_at(files, reaches, n, types, a)
}

// How far record i reaches: as the table says, which has the records below n, or else as far as its parts, which are smaller records.
#[cycle(known_reach_reach_at)]
pub fn reach_at(files: &Files, reaches: &[usize], n: usize, types: bool, i: usize) -> usize
    requires { (2 * n ≤ length reaches.now) × Reached (words files.now) reaches.now (2 * n) }
    ensures { result ≡ reach types (tree (words files.now) i) }
{
    if i < n {
        return entry_of(reaches, types, i);
    }
    if i == 0 {
        return 0;
    }
    let v = files.record_at(i);
    let own = own_reach(files, types, i, v.kind);
    let a = part_of(true, i, v, 1);
    let b = part_of(true, i, v, 2);
    let c = part_of(true, i, v, 3);
    let x = known_reach(files, reaches, n, types, a);
    let y = known_reach(files, reaches, n, types, b);
    let z = known_reach(files, reaches, n, types, c);
    larger(own, larger(x, larger(under(types, v.kind, y), z)))
}
