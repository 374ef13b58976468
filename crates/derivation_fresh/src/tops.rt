// The largest record that a member or the goal may have the constant of R7 in: keys of which the table of known facts has that they lack it are passed over.
ghost use Rattle.std.specs.Prelude.{◌≡◌, true, ◌-◌, ◌<◌, ◌≤◌, length};
ghost use Rattle.reader.specs.Files.{words};
ghost use Rattle.reader.specs.Tests.{every};
ghost use Rattle.derivation_trees.specs.Keys.{body_of};
ghost use Rattle.derivation_trees.specs.Table.{Table};
ghost use Rattle.derivation_frames.specs.Frames.{chain_trees, Framed};
ghost use Rattle.derivation_known.specs.Known.{Known};
ghost use Rattle.derivation_fresh.specs.Fresh.{lacks};
ghost use Rattle.derivation_fresh.specs.Tops.{entry_body, KeyTop, EntryTop, ChainTop, Topped};

use derivation_frames::frames;
use derivation_gathered::gathered::extend;
use derivation_known::facts;
use derivation_trees::keys;
use reader::Files;

// A number above the record of the key, or 0 where c is known not to be in its tree.
fn key_top(files: &Files, known: &[usize], c: usize, key: usize) -> usize
    requires { Known (words files.now) known.now }
    ensures { KeyTop (words files.now) c key result × (result ≤ body_of key) }
{
    if facts::lacks_known(known, c, key) {
        return 0;
    }
    key % 262144
}

// The same of what entry e of a frame adds.
fn entry_top(files: &Files, known: &[usize], c: usize, e: usize) -> usize
    requires { Known (words files.now) known.now }
    ensures { EntryTop (words files.now) c e result × (result ≤ entry_body e) }
{
    if e == 0 {
        return 0;
    }
    key_top(files, known, c, e - 1)
}

// Is c known to be in no item of the chain?
// No loop in common with `chain_lacks` of fresh.rt, no plainer: that one tells exactly and writes to the table, this one reads it and may say no.
fn chain_known(files: &Files, keys: &[usize], known: &[usize], c: usize, chain: usize) -> bool
    requires { Table (words files.now) keys.now × (chain < length keys.now) × Known (words files.now) known.now }
    ensures { result ≡ true → every (lacks c) (chain_trees (words files.now) chain) ≡ true }
{
    let mut l = chain;
    while l != 0 {
        let item = files.lower_at(l, 1);
        let x = keys::key_of(files, keys, item);
        if !facts::lacks_known(known, c, x) {
            return false;
        }
        l = files.lower_at(l, 3);
    }
    true
}

// A number above the records of the chain, or 0 where c is known to be in none of its items.
fn chain_top(files: &Files, keys: &[usize], known: &[usize], c: usize, chain: usize) -> usize
    requires { Table (words files.now) keys.now × (chain < length keys.now) × Known (words files.now) known.now }
    ensures { ChainTop (words files.now) c chain result × (result ≤ chain) }
{
    if chain_known(files, keys, known, c, chain) {
        return 0;
    }
    chain
}

// A number above the records of the members and the goal at depth d that c may be in.
fn top_of(
    files: &Files,
    keys: &[usize],
    frames: &[usize],
    known: &[usize],
    d: usize,
    c: usize,
) -> usize
    requires { Table (words files.now) keys.now × Framed (words files.now) (length keys.now) frames.now d × Known (words files.now) known.now }
    ensures { Topped (words files.now) frames.now c d result × (result ≤ length keys.now) }
{
    let s = frames::start_at(frames, d);
    let chain = frames::entry_at(frames, s);
    let goal = frames::goal_at(frames, d);
    let a = chain_top(files, keys, known, c, chain);
    let b = key_top(files, known, c, goal);
    let mut top = a.max(b);
    for f in s..d {
        let e = frames::entry_at(frames, f + 1);
        top = top.max(entry_top(files, known, c, e));
    }
    top
}

// A number above the records of the members and the goal at depth d that c may be in. Where many records would have to be marked for c, some part of all there are,
// those of the goal and the members are gathered first: where c is not among them, it needs no marks.
pub fn settled_top(
    files: &Files,
    keys: &[usize],
    frames: &[usize],
    known: &mut [usize],
    d: usize,
    c: usize,
) -> usize
    requires { Table (words files.now) keys.now × Framed (words files.now) (length keys.now) frames.now d × Known (words files.now) known.old }
    ensures { Topped (words files.now) frames.now c d result × (result ≤ length keys.now) × Known (words files.now) known.new }
{
    let top = top_of(files, keys, frames, known, d, c);
    if top <= c {
        return top;
    }
    if top - c < 4096 + keys.len() / 16 {
        return top;
    }
    extend(files, keys, frames, known, d, c);
    top_of(files, keys, frames, known, d, c)
}
