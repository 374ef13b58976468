// The records of the goal and the members at a depth are put into the set of known facts: a constant that is not in it need not be looked for there.
ghost use Rattle.reader.specs.Files.{words};
ghost use Rattle.std.specs.Prelude.{◌≡◌, ◌<◌, length};
ghost use Rattle.derivation_trees.specs.Table.{Table};
ghost use Rattle.derivation_frames.specs.Frames.{start_at, Framed};
ghost use Rattle.derivation_known.specs.Held.{SameRows};
ghost use Rattle.derivation_known.specs.Known.{Known};

use derivation_frames::{frames, links};
use derivation_known::set;
use derivation_trees::keys;
use reader::Files;

// Puts the records of the chain's items in.
fn gather_chain(files: &Files, keys: &[usize], known: &mut [usize], chain: usize)
    requires { Table (words files.now) keys.now × (chain < length keys.now) }
    ensures { SameRows known.old known.new }
{
    let mut l = chain;
    while l != 0 {
        let item = files.lower_at(l, 1);
        let x = keys::key_of(files, keys, item);
        set::put_key(known, x);
        l = files.lower_at(l, 3);
    }
}

// Puts the record of what entry e of a frame adds in.
fn gather_entry(known: &mut [usize], e: usize)
    ensures { SameRows known.old known.new }
{
    if e == 0 {
        return;
    }
    set::put_key(known, e - 1);
}

// Puts the records of what the frames above depth s, to depth d, add in.
fn gather_added(
    files: &Files,
    keys: &[usize],
    frames: &[usize],
    known: &mut [usize],
    d: usize,
    s: usize,
)
    requires { Framed (words files.now) (length keys.now) frames.now d × (s ≡ start_at frames.now d) }
    ensures { SameRows known.old known.new }
{
    for f in s..d {
        let e = frames::entry_at(frames, f + 1);
        gather_entry(known, e);
    }
}

// Puts the records of the chain's items in with all their parts, one after the other. Says whether it did so with all.
// No loop in common with the functions above, no plainer: those keep the rows and may leave the set open, these keep it closed, and a closure would have to say which.
fn include_chain(files: &Files, keys: &[usize], known: &mut [usize], chain: usize) -> bool
    requires { Table (words files.now) keys.now × (chain < length keys.now) × Known (words files.now) known.old }
    ensures { Known (words files.now) known.new }
{
    let mut l = chain;
    while l != 0 {
        let link = links::link_at(files, l);
        let x = keys::key_of(files, keys, link.item);
        if !set::include_key(files, known, x) {
            return false;
        }
        l = link.next;
    }
    true
}

// The same with what entry e of a frame adds.
fn include_entry(files: &Files, known: &mut [usize], e: usize) -> bool
    requires { Known (words files.now) known.old }
    ensures { Known (words files.now) known.new }
{
    if e == 0 {
        return true;
    }
    set::include_key(files, known, e - 1)
}

// The same with what the frames above depth s, to depth d, add.
fn include_added(
    files: &Files,
    keys: &[usize],
    frames: &[usize],
    known: &mut [usize],
    d: usize,
    s: usize,
) -> bool
    requires { Framed (words files.now) (length keys.now) frames.now d × (s ≡ start_at frames.now d) × Known (words files.now) known.old }
    ensures { Known (words files.now) known.new }
{
    for f in s..d {
        let e = frames::entry_at(frames, f + 1);
        if !include_entry(files, known, e) {
            return false;
        }
    }
    true
}

// The same with the goal and the members at depth d: quick where few of their records are not in the set.
fn include_all(
    files: &Files,
    keys: &[usize],
    frames: &[usize],
    known: &mut [usize],
    d: usize,
) -> bool
    requires { Table (words files.now) keys.now × Framed (words files.now) (length keys.now) frames.now d × Known (words files.now) known.old }
    ensures { Known (words files.now) known.new }
{
    let s = frames::start_at(frames, d);
    let chain = frames::entry_at(frames, s);
    let goal = frames::goal_at(frames, d);
    if !set::include_key(files, known, goal) {
        return false;
    }
    if !include_chain(files, keys, known, chain) {
        return false;
    }
    include_added(files, keys, frames, known, d, s)
}

// Takes every record out, where c is one of them: so the records of other members, which lack c, may stay.
fn clear_of(known: &mut [usize], c: usize)
    ensures { SameRows known.old known.new }
{
    if !set::is_held(known, c) {
        return;
    }
    set::clear(known);
}

// Puts the records of the goal and the members at depth d in, and all their parts.
fn gather(files: &Files, keys: &[usize], frames: &[usize], known: &mut [usize], d: usize, c: usize)
    requires { Table (words files.now) keys.now × Framed (words files.now) (length keys.now) frames.now d × Known (words files.now) known.old }
    ensures { Known (words files.now) known.new }
{
    clear_of(known, c);
    let s = frames::start_at(frames, d);
    let chain = frames::entry_at(frames, s);
    let goal = frames::goal_at(frames, d);
    set::put_key(known, goal);
    gather_chain(files, keys, known, chain);
    gather_added(files, keys, frames, known, d, s);
    set::close(files, known);
}

// The same, one after the other where that is quick and c is not in the set.
pub fn extend(
    files: &Files,
    keys: &[usize],
    frames: &[usize],
    known: &mut [usize],
    d: usize,
    c: usize,
)
    requires { Table (words files.now) keys.now × Framed (words files.now) (length keys.now) frames.now d × Known (words files.now) known.old }
    ensures { Known (words files.now) known.new }
{
    if set::is_held(known, c) {
        gather(files, keys, frames, known, d, c);
        return;
    }
    if include_all(files, keys, frames, known, d) {
        return;
    }
    gather(files, keys, frames, known, d, c);
}
