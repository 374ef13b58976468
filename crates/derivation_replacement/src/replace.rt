// Replacement: is a tree what another one is with index 0 replaced? All by keys; what has no index to replace is compared at once, and what was found before
// is known. Of a tree's parts the one with the largest order is compared last, by the loop, so that the recursion is no deeper than 15, and a call more for each
// 64 nodes that the loop takes.
ghost use Rattle.std.specs.Prelude.{◌≡◌, ◌+◌, ◌<◌, ◌≤◌, eqb, length};
ghost use Rattle.reader.specs.Files.{words};
ghost use Rattle.reader.specs.Trees.{same};
ghost use Rattle.reader.specs.Variables.{replaced};
ghost use Rattle.derivation_trees.specs.Keys.{rank, decoded, Normal};
ghost use Rattle.derivation_known.specs.Known.{fits, Known};
ghost use Rattle.derivation_replacement.specs.Settled.{Asking, Open, Settled};
ghost use Rattle.derivation_replacement.specs.Last.{largest, order_in, last_part};
ghost use Rattle.derivation_paths.specs.Tables.{Tables};
ghost use Rattle.derivation_replacement.specs.Replaced.{fits_part, first_other, second_other, others_fit, index_key, same_heads, heads_fit, part_depth};

use derivation_closedness::closed;
use derivation_known::facts;
use derivation_paths::paths::follow;
use derivation_trees::parts;
use reader::Files;
use reader::kinds::Kind;

// Is the tree of key j the bound variable with index d?
fn is_index(files: &Files, keys: &[usize], j: usize, d: usize) -> bool
    requires { Normal (words files.now) (length keys.now) j }
    ensures { result ≡ index_key (words files.now) j d }
{
    if parts::kind_of(files, keys, j) != Kind::BoundVariable as usize {
        return false;
    }
    parts::atom_of(files, keys, j) == d
}

// Have the trees of keys x and j one kind and one atom?
fn same_heads(files: &Files, keys: &[usize], x: usize, j: usize) -> bool
    requires { Normal (words files.now) (length keys.now) x × Normal (words files.now) (length keys.now) j }
    ensures { result ≡ same_heads (words files.now) x j }
{
    let k = parts::kind_of(files, keys, x);
    let l = parts::kind_of(files, keys, j);
    if k != l {
        return false;
    }
    parts::atom_of(files, keys, x) == parts::atom_of(files, keys, j)
}

// Is the tree of key x no leaf, with the kind and the atom of that of key j?
fn heads_fit(files: &Files, keys: &[usize], x: usize, j: usize) -> bool
    requires { Normal (words files.now) (length keys.now) x × Normal (words files.now) (length keys.now) j }
    ensures { result ≡ heads_fit (words files.now) x j }
{
    if x == 0 {
        return false;
    }
    same_heads(files, keys, x, j)
}

// The index that stands for d in part w of the tree of key j.
fn part_depth(files: &Files, keys: &[usize], j: usize, d: usize, w: u8) -> usize
    requires { Normal (words files.now) (length keys.now) j × (d < 18446744073709551615) }
    ensures { (result ≡ part_depth (words files.now) j d w) × (result ≤ d + 1) }
{
    if w != 2 {
        return d;
    }
    if parts::kind_of(files, keys, j) == Kind::ForAll as usize {
        d + 1
    } else {
        d
    }
}

// What the table has as the order of key j.
fn order_of(reaches: &[u16], j: usize) -> usize
    ensures { result ≡ order_in reaches.now j }
{
    if j == 0 {
        return 0;
    }
    let body = j % 262144;
    if body < 2 {
        return 1;
    }
    closed::known_order(reaches, body - 1)
}

// Which of three orders is the largest, the first such one.
fn largest_of(a: usize, b: usize, c: usize) -> u8
    ensures { (result ≡ largest a b c) × (0 < result) × (result < 4) }
{
    if a < b {
        return if b < c { 3 } else { 2 };
    }
    if a < c { 3 } else { 1 }
}

// The part of the tree of key j that is compared last: the one with the largest order.
fn last_part(files: &Files, keys: &[usize], reaches: &[u16], j: usize) -> u8
    requires { Tables (words files.now) keys.now reaches.now × Normal (words files.now) (length keys.now) j }
    ensures { (result ≡ last_part (words files.now) j) × (0 < result) × (result < 4) }
{
    let a = order_of(reaches, parts::part_of(files, keys, j, 1));
    let b = order_of(reaches, parts::part_of(files, keys, j, 2));
    let c = order_of(reaches, parts::part_of(files, keys, j, 3));
    largest_of(a, b, c)
}

// The same for parts w of the trees of keys x and j.
#[cycle(fits_at_fits_below_fits_part_others_fit)]
fn fits_part(
    files: &Files,
    keys: &[usize],
    reaches: &[u16],
    known: &mut [usize],
    x: usize,
    t: usize,
    j: usize,
    d: usize,
    w: u8,
) -> bool
    requires { Asking (words files.now) keys.now reaches.now known.old x t j d × (0 < j) × (0 < w) × (w < 4) }
    ensures { (result ≡ fits_part (words files.now) x t j d w) × Known (words files.now) known.new }
{
    let e = part_depth(files, keys, j, d, w);
    let y = parts::part_of(files, keys, x, w);
    let z = parts::part_of(files, keys, j, w);
    fits_at(files, keys, reaches, known, y, t, z, e)
}

// The first part other than w.
fn first_other(w: u8) -> u8
    ensures { (result ≡ first_other w) × (0 < result) × (result < 4) }
{
    if w == 1 { 2 } else { 1 }
}

// The last part other than w.
fn second_other(w: u8) -> u8
    ensures { (result ≡ second_other w) × (0 < result) × (result < 4) }
{
    if w == 3 { 2 } else { 3 }
}

// The same for the parts other than w.
#[cycle(fits_at_fits_below_fits_part_others_fit)]
fn others_fit(
    files: &Files,
    keys: &[usize],
    reaches: &[u16],
    known: &mut [usize],
    x: usize,
    t: usize,
    j: usize,
    d: usize,
    w: u8,
) -> bool
    requires { Asking (words files.now) keys.now reaches.now known.old x t j d × (0 < j) }
    ensures { (result ≡ others_fit (words files.now) x t j d w) × Known (words files.now) known.new }
{
    let u = first_other(w);
    let v = second_other(w);
    if !fits_part(files, keys, reaches, known, x, t, j, d, u) {
        return false;
    }
    fits_part(files, keys, reaches, known, x, t, j, d, v)
}

// 1 for yes and 0 for no.
fn answer_of(yes: bool) -> u8
    ensures { (eqb result 1 ≡ yes) × (result < 2) }
{
    if yes { 1 } else { 0 }
}

// What is plain: 1 that the tree of key x is that of key j with that of key t in place of index d, 0 that it is not, 2 that their parts have to be compared.
fn settled(
    files: &Files,
    keys: &[usize],
    reaches: &[u16],
    known: &[usize],
    x: usize,
    t: usize,
    j: usize,
    d: usize,
) -> u8
    requires { Asking (words files.now) keys.now reaches.now known.now x t j d }
    ensures { Settled (words files.now) x t j d result }
{
    if closed::is_below(files, keys, reaches, j, d) {
        return answer_of(x == j);
    }
    if is_index(files, keys, j, d) {
        return answer_of(x == t);
    }
    if facts::fits_known(known, x, t, j, d) {
        1
    } else {
        2
    }
}

// Is it, where that is not plain? The loop takes 64 nodes with more than one part to compare, each with the path below it, and a call the rest.
#[cycle(fits_at_fits_below_fits_part_others_fit)]
fn fits_below(
    files: &Files,
    keys: &[usize],
    reaches: &[u16],
    known: &mut [usize],
    x: usize,
    t: usize,
    j: usize,
    d: usize,
) -> bool
    requires { Asking (words files.now) keys.now reaches.now known.old x t j d × Open (words files.now) j d }
    ensures { (result ≡ fits (words files.now) x t j d) × Known (words files.now) known.new }
{
    let mut y = x;
    let mut z = j;
    let mut e = d;
    for _ in 0..64_usize {
        if !heads_fit(files, keys, y, z) {
            return false;
        }
        let w = last_part(files, keys, reaches, z);
        if !others_fit(files, keys, reaches, known, y, t, z, e, w) {
            return false;
        }
        let f = part_depth(files, keys, z, e, w);
        let u = parts::part_of(files, keys, y, w);
        let v = parts::part_of(files, keys, z, w);
        let rest = follow(files, keys, reaches, u, v, f);
        y = rest.whole;
        z = rest.body;
        e = rest.depth;
        let s = settled(files, keys, reaches, known, y, t, z, e);
        if s != 2 {
            return s == 1;
        }
    }
    fits_at(files, keys, reaches, known, y, t, z, e)
}

// Is the tree of key x that of key j with that of key t in place of index d? What was found by parts is kept.
#[cycle(fits_at_fits_below_fits_part_others_fit)]
fn fits_at(
    files: &Files,
    keys: &[usize],
    reaches: &[u16],
    known: &mut [usize],
    x: usize,
    t: usize,
    j: usize,
    d: usize,
) -> bool
    requires { Asking (words files.now) keys.now reaches.now known.old x t j d }
    ensures { (result ≡ fits (words files.now) x t j d) × Known (words files.now) known.new }
{
    let s = settled(files, keys, reaches, known, x, t, j, d);
    if s != 2 {
        return s == 1;
    }
    if !fits_below(files, keys, reaches, known, x, t, j, d) {
        return false;
    }
    facts::keep_fits(known, x, t, j, d);
    true
}

// "B(t) is B with index 0 replaced": is the tree of key x that of key j with that of key t in place of index 0?
pub fn is_replaced(
    files: &Files,
    keys: &[usize],
    reaches: &[u16],
    known: &mut [usize],
    x: usize,
    t: usize,
    j: usize,
) -> bool
    requires { Tables (words files.now) keys.now reaches.now × Known (words files.now) known.old × Normal (words files.now) (length keys.now) x × Normal (words files.now) (length keys.now) t × Normal (words files.now) (length keys.now) j }
    ensures { (result ≡ same (decoded (words files.now) x) (replaced 0 (decoded (words files.now) t) (decoded (words files.now) j))) × Known (words files.now) known.new }
{
    fits_at(files, keys, reaches, known, x, t, j, 0)
}
