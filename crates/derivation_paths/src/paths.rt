// Down a path: where all parts of a record but one have no index to replace and stand in the other record too, only that part is left to compare. Each record is
// fetched once; the term is not asked for.
ghost use Rattle.std.specs.Prelude.{◌≡◌, ◌+◌, ◌<◌, ◌≤◌, length};
ghost use Rattle.reader.specs.Files.{words};
ghost use Rattle.reader.specs.Variables.{binders};
ghost use Rattle.derivation_trees.specs.Keys.{rank, Normal};
ghost use Rattle.derivation_paths.specs.Tables.{Tables};
ghost use Rattle.derivation_paths.specs.Paths.{RecordKey, HeadsAgree, Agree, Inside, Alone, LeftIs, Leaves};

use crate::Left;
use reader::kinds::Kind;
use reader::{Files, Record};
use reader_equality::keys::atom_of;
use reader_equality::{Parts, shapes};

// Is this the key of a record, with no ¬ before it?
fn is_record(key: usize) -> bool
    ensures { RecordKey key result }
{
    if key < 2 {
        return false;
    }
    key < 262144
}

// Have records i and h, whose words are p and q, one kind, which is not a variable's, and one atom?
fn heads_agree(i: usize, p: Record, h: usize, q: Record) -> bool
    ensures { HeadsAgree i p h q result }
{
    if p.kind != q.kind {
        return false;
    }
    if p.kind == Kind::BoundVariable as usize {
        return false;
    }
    atom_of(i, p) == atom_of(h, q)
}

// The index that stands for d in the second part of a record of kind k.
fn depth_under(k: usize, d: usize) -> usize
    requires { d < 18446744073709551615 }
    ensures { result ≡ d + binders k }
{
    if k == Kind::ForAll as usize { d + 1 } else { d }
}

// Has the tree of record p no index from d on, and is it that of record q? It may be, where the answer is no.
fn is_same(files: &Files, keys: &[usize], reaches: &[u16], p: usize, q: usize, d: usize) -> bool
    requires { Tables (words files.now) keys.now reaches.now × (p < length keys.now) × (q < length keys.now) }
    ensures { Agree (words files.now) keys.now p q d result }
{
    let reach = (reaches[p] % 128) as usize;
    if d < reach {
        return false;
    }
    keys[p] == keys[q]
}

// Which of the parts a of a body and b of an instance is left to compare, since the two others are the same; 0 where that can't be said. The second part stands
// at depth e.
fn part_left(
    files: &Files,
    keys: &[usize],
    reaches: &[u16],
    a: Parts,
    b: Parts,
    d: usize,
    e: usize,
) -> u8
    requires { Tables (words files.now) keys.now reaches.now × Inside (length keys.now) a × Inside (length keys.now) b }
    ensures { Alone (words files.now) keys.now a b d e result }
{
    let two = is_same(files, keys, reaches, a.second, b.second, e);
    let three = is_same(files, keys, reaches, a.third, b.third, d);
    if two {
        if three {
            return 1;
        }
    }
    if !is_same(files, keys, reaches, a.first, b.first, d) {
        return 0;
    }
    if two {
        return 3;
    }
    if three { 2 } else { 0 }
}

// What is left where part w is; all of it, keys x and j at depth d, where w is none.
fn left_at(
    keys: &[usize],
    a: Parts,
    b: Parts,
    d: usize,
    e: usize,
    x: usize,
    j: usize,
    w: u8,
) -> Left
    requires { Inside (length keys.now) a × Inside (length keys.now) b }
    ensures { LeftIs keys.now a b d e x j w result }
{
    match w {
        1 => Left {
            whole: keys[b.first],
            body: keys[a.first],
            depth: d,
        },
        2 => Left {
            whole: keys[b.second],
            body: keys[a.second],
            depth: e,
        },
        3 => Left {
            whole: keys[b.third],
            body: keys[a.third],
            depth: d,
        },
        _ => Left {
            whole: x,
            body: j,
            depth: d,
        },
    }
}

// What is left of the question whether the tree of key x is that of key j with a term in place of index d, after one record of each, or all of it.
fn stepped(files: &Files, keys: &[usize], reaches: &[u16], x: usize, j: usize, d: usize) -> Left
    requires { Tables (words files.now) keys.now reaches.now × Normal (words files.now) (length keys.now) x × Normal (words files.now) (length keys.now) j × (d + rank j < 18446744073709551616) }
    ensures { Leaves (words files.now) (length keys.now) x j d result }
{
    let all = Left {
        whole: x,
        body: j,
        depth: d,
    };
    if !is_record(j) {
        return all;
    }
    if !is_record(x) {
        return all;
    }
    let i = j - 1;
    let h = x - 1;
    let p = files.record_at(i);
    let q = files.record_at(h);
    if !heads_agree(i, p, h, q) {
        return all;
    }
    let a = shapes::parts_in(false, i, p);
    let b = shapes::parts_in(false, h, q);
    let e = depth_under(p.kind, d);
    let w = part_left(files, keys, reaches, a, b, d, e);
    left_at(keys, a, b, d, e, x, j, w)
}

// The same after as many records as there are with one part left.
pub fn follow(files: &Files, keys: &[usize], reaches: &[u16], x: usize, j: usize, d: usize) -> Left
    requires { Tables (words files.now) keys.now reaches.now × Normal (words files.now) (length keys.now) x × Normal (words files.now) (length keys.now) j × (d + rank j < 18446744073709551616) }
    ensures { Leaves (words files.now) (length keys.now) x j d result }
{
    let mut y = x;
    let mut z = j;
    let mut e = d;
    loop {
        let left = stepped(files, keys, reaches, y, z, e);
        if left.body == z {
            return left;
        }
        y = left.whole;
        z = left.body;
        e = left.depth;
    }
}
