// Refusal 16: the constant of R7 is in neither a member nor the goal. The records up to the largest that may have it are marked first, each once, in the table of
// reaches, and the marks are then taken off again. What was found to lack the constant is known from then on, and no record is marked for it again. Where that would
// be many, the records of the goal and the members are gathered first: a constant that is not among them, whichever it is, needs no marks there.
// A rule has no name but its number.
ghost use Rattle.std.specs.Prelude.{◌≡◌, suc, ◌-◌, ◌<◌, ◌≤◌, length};
ghost use Rattle.reader.specs.Files.{words};
ghost use Rattle.reader.specs.Tests.{every};
ghost use Rattle.derivation_trees.specs.Keys.{decoded, Normal};
ghost use Rattle.derivation_trees.specs.Table.{Table};
ghost use Rattle.derivation_closedness.specs.Reaches.{Unmarked};
ghost use Rattle.derivation_marks.specs.Marks.{Marked};
ghost use Rattle.derivation_frames.specs.Frames.{start_at, goal_at, added_by, added_from, chain_trees, members_at, Framed};
ghost use Rattle.derivation_known.specs.Known.{Known};
ghost use Rattle.derivation_members.specs.Needs.{At};
ghost use Rattle.derivation_fresh.specs.Fresh.{lacks, fresh_in, node_fresh, Marking};
ghost use Rattle.derivation_fresh.specs.Tops.{KeyTop, EntryTop, ChainTop, Topped};

use crate::tops::settled_top;
use derivation_forms::forms;
use derivation_frames::frames;
use derivation_known::facts;
use derivation_marks::marks;
use derivation_trees::{keys, parts};
use reader::Files;

// Is constant c not in the tree with this key, by the marks of the records below `top`? That it is not is made known.
fn key_lacks(
    files: &Files,
    keys: &[usize],
    reaches: &[u16],
    known: &mut [usize],
    c: usize,
    top: usize,
    key: usize,
) -> bool
    requires { Marking (words files.now) keys.now reaches.now c top × Normal (words files.now) top key × Known (words files.now) known.old }
    ensures { (result ≡ lacks c (decoded (words files.now) key)) × Known (words files.now) known.new }
{
    let few = &keys[..top];
    if marks::key_marked(files, few, reaches, c, key) {
        return false;
    }
    facts::keep_lacks(known, c, key);
    true
}

// Is constant c in no item of the chain?
fn chain_lacks(
    files: &Files,
    keys: &[usize],
    reaches: &[u16],
    known: &mut [usize],
    c: usize,
    top: usize,
    chain: usize,
) -> bool
    requires { Table (words files.now) keys.now × Marking (words files.now) keys.now reaches.now c top × (chain ≤ top) × (chain < length keys.now) × Known (words files.now) known.old }
    ensures { (result ≡ every (lacks c) (chain_trees (words files.now) chain)) × Known (words files.now) known.new }
{
    let mut l = chain;
    while l != 0 {
        let item = files.lower_at(l, 1);
        let x = keys::key_of(files, keys, item);
        if !key_lacks(files, keys, reaches, known, c, top, x) {
            return false;
        }
        l = files.lower_at(l, 3);
    }
    true
}

// Is constant c not in the tree with this key? Above `top` it is known not to be.
fn lacks_below(
    files: &Files,
    keys: &[usize],
    reaches: &[u16],
    known: &mut [usize],
    c: usize,
    top: usize,
    key: usize,
) -> bool
    requires { Marking (words files.now) keys.now reaches.now c top × Normal (words files.now) (length keys.now) key × KeyTop (words files.now) c key top × Known (words files.now) known.old }
    ensures { (result ≡ lacks c (decoded (words files.now) key)) × Known (words files.now) known.new }
{
    if top < key % 262144 {
        return true;
    }
    key_lacks(files, keys, reaches, known, c, top, key)
}

// Is constant c not in what entry e of a frame adds?
fn entry_lacks(
    files: &Files,
    keys: &[usize],
    reaches: &[u16],
    known: &mut [usize],
    c: usize,
    top: usize,
    e: usize,
) -> bool
    requires { Marking (words files.now) keys.now reaches.now c top × ((e ≡ 0 → ⊥) → Normal (words files.now) (length keys.now) (e - 1)) × EntryTop (words files.now) c e top × Known (words files.now) known.old }
    ensures { (result ≡ every (lacks c) (added_by (words files.now) e)) × Known (words files.now) known.new }
{
    if e == 0 {
        return true;
    }
    lacks_below(files, keys, reaches, known, c, top, e - 1)
}

// Is constant c in no member that the frames above depth s, to depth d, add?
fn added_lacks(
    files: &Files,
    keys: &[usize],
    frames: &[usize],
    reaches: &[u16],
    known: &mut [usize],
    d: usize,
    c: usize,
    top: usize,
    s: usize,
) -> bool
    requires { Framed (words files.now) (length keys.now) frames.now d × Topped (words files.now) frames.now c d top × Marking (words files.now) keys.now reaches.now c top × (s ≡ start_at frames.now d) × Known (words files.now) known.old }
    ensures { (result ≡ every (lacks c) (added_from (words files.now) frames.now (d - s) (suc s))) × Known (words files.now) known.new }
{
    for f in s..d {
        let e = frames::entry_at(frames, f + 1);
        if !entry_lacks(files, keys, reaches, known, c, top, e) {
            return false;
        }
    }
    true
}

// Is constant c in no item of the chain of members? Above `top` it is known not to be.
fn chain_below(
    files: &Files,
    keys: &[usize],
    reaches: &[u16],
    known: &mut [usize],
    c: usize,
    top: usize,
    chain: usize,
) -> bool
    requires { Table (words files.now) keys.now × Marking (words files.now) keys.now reaches.now c top × ChainTop (words files.now) c chain top × (chain < length keys.now) × Known (words files.now) known.old }
    ensures { (result ≡ every (lacks c) (chain_trees (words files.now) chain)) × Known (words files.now) known.new }
{
    if top < chain {
        return true;
    }
    chain_lacks(files, keys, reaches, known, c, top, chain)
}

// Is constant c in no member at depth d?
fn members_lack(
    files: &Files,
    keys: &[usize],
    frames: &[usize],
    reaches: &[u16],
    known: &mut [usize],
    d: usize,
    c: usize,
    top: usize,
) -> bool
    requires { Table (words files.now) keys.now × Framed (words files.now) (length keys.now) frames.now d × Topped (words files.now) frames.now c d top × Marking (words files.now) keys.now reaches.now c top × Known (words files.now) known.old }
    ensures { (result ≡ every (lacks c) (members_at (words files.now) frames.now d)) × Known (words files.now) known.new }
{
    let s = frames::start_at(frames, d);
    let chain = frames::entry_at(frames, s);
    if !chain_below(files, keys, reaches, known, c, top, chain) {
        return false;
    }
    added_lacks(files, keys, frames, reaches, known, d, c, top, s)
}

// Is constant c in neither the goal nor a member at depth d, by the marks of the records below `top`?
fn none_marked(
    files: &Files,
    keys: &[usize],
    frames: &[usize],
    reaches: &[u16],
    known: &mut [usize],
    d: usize,
    c: usize,
    top: usize,
) -> bool
    requires { Table (words files.now) keys.now × Framed (words files.now) (length keys.now) frames.now d × Topped (words files.now) frames.now c d top × (top ≤ length keys.now) × (length keys.now ≤ length reaches.now) × Marked (words files.now) c reaches.now top × Known (words files.now) known.old }
    ensures { (result ≡ fresh_in c (decoded (words files.now) (goal_at frames.now d)) (members_at (words files.now) frames.now d)) × Known (words files.now) known.new }
{
    let goal = frames::goal_at(frames, d);
    if !lacks_below(files, keys, reaches, known, c, top, goal) {
        return false;
    }
    members_lack(files, keys, frames, reaches, known, d, c, top)
}

// Is constant c in neither the goal nor a member at depth d? The marks are taken off again, so that the table stays as it was.
fn is_fresh(
    files: &Files,
    keys: &[usize],
    frames: &[usize],
    reaches: &mut [u16],
    known: &mut [usize],
    d: usize,
    c: usize,
) -> bool
    requires { Table (words files.now) keys.now × Framed (words files.now) (length keys.now) frames.now d × (length keys.now ≤ length reaches.old) × Unmarked reaches.old × Known (words files.now) known.old }
    ensures { (result ≡ fresh_in c (decoded (words files.now) (goal_at frames.now d)) (members_at (words files.now) frames.now d)) × (reaches.new ≡ reaches.old) × Known (words files.now) known.new }
{
    let top = settled_top(files, keys, frames, known, d, c);
    marks::mark_all(files, reaches, c, top);
    let fresh = none_marked(files, keys, frames, reaches, known, d, c, top);
    marks::unmark_all(reaches, c, top);
    fresh
}

// Is the constant of node n fresh, where its rule has one? The table of reaches stays as it was.
pub fn constant_fresh(
    files: &Files,
    keys: &[usize],
    frames: &[usize],
    reaches: &mut [u16],
    known: &mut [usize],
    d: usize,
    n: usize,
) -> bool
    requires { At (words files.now) keys.now frames.now d n × (length keys.now ≤ length reaches.old) × Unmarked reaches.old × Known (words files.now) known.old }
    ensures { (result ≡ node_fresh (words files.now) (members_at (words files.now) frames.now d) (decoded (words files.now) (goal_at frames.now d)) n) × (reaches.new ≡ reaches.old) × Known (words files.now) known.new }
{
    let k = files.word_at(n, 0);
    if k != 77 {
        return true;
    }
    let goal = frames::goal_at(frames, d);
    let key = forms::form_key(files, keys, goal, n, 8);
    let c = parts::atom_of(files, keys, key);
    is_fresh(files, keys, frames, reaches, known, d, c)
}
