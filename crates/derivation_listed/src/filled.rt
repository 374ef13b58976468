// The keys of the members at a depth, listed in their order from position 1 on.
ghost use Rattle.std.specs.Prelude.{◌≡◌, ◌+◌, ◌-◌, ◌<◌, ◌≤◌, [], length, set};
ghost use Rattle.reader.specs.Files.{words};
ghost use Rattle.reader.specs.Tests.{if_eq};
ghost use Rattle.derivation_trees.specs.Table.{Table};
ghost use Rattle.derivation_frames.specs.Frames.{start_at, entry_at, chain_trees, members_at, Framed};
ghost use Rattle.derivation_listed.specs.Filled.{Filled, Outside};

use derivation_frames::{frames, links};
use derivation_trees::keys;
use reader::Files;
use reader_equality::tables;

// Lists the keys of the items of chain c, and says how many they are.
fn fill_chain(files: &Files, keys: &[usize], c: usize, listed: &mut [usize]) -> usize
    requires { Table (words files.now) keys.now × (c < length keys.now) × (length (chain_trees (words files.now) c) ≤ 2048) × (length listed.old ≡ 2049) }
    ensures { Filled (words files.now) (length keys.now) listed.new result [] (chain_trees (words files.now) c) × Outside result listed.old listed.new }
{
    let mut l = c;
    let mut n: usize = 0;
    while l != 0 {
        let link = links::link_at(files, l);
        let x = keys::key_of(files, keys, link.item);
        tables::store(listed, n + 1, x);
        n += 1;
        l = link.next;
    }
    n
}

// Lists what entry e of a frame adds after n others, and says how many they are then.
fn fill_entry(listed: &mut [usize], n: usize, e: usize) -> usize
    requires { n ≤ 2048 }
    ensures { (result ≡ if_eq e 0 n (n + 1)) × (listed.new ≡ if_eq e 0 listed.old (set listed.old (n + 1) (e - 1))) }
{
    if e == 0 {
        return n;
    }
    tables::store(listed, n + 1, e - 1);
    n + 1
}

// Lists, after the h items of the chain of depth s, what the frames above add.
fn fill_added(
    files: &Files,
    keys: &[usize],
    frames: &[usize],
    d: usize,
    s: usize,
    listed: &mut [usize],
    h: usize,
) -> usize
    requires { Framed (words files.now) (length keys.now) frames.now d × (s ≡ start_at frames.now d) × (length listed.old ≡ 2049) × Filled (words files.now) (length keys.now) listed.old h [] (chain_trees (words files.now) (entry_at frames.now s)) }
    ensures { Filled (words files.now) (length keys.now) listed.new result [] (members_at (words files.now) frames.now d) × Outside result listed.old listed.new × (h ≤ result) }
{
    let mut n = h;
    for f in s..d {
        let e = frames::entry_at(frames, f + 1);
        n = fill_entry(listed, n, e);
    }
    n
}

// Lists the keys of the members at depth d, and says how many they are; the other positions stay.
pub fn fill(
    files: &Files,
    keys: &[usize],
    frames: &[usize],
    d: usize,
    listed: &mut [usize],
) -> usize
    requires { Table (words files.now) keys.now × Framed (words files.now) (length keys.now) frames.now d × (length listed.old ≡ 2049) }
    ensures { Filled (words files.now) (length keys.now) listed.new result [] (members_at (words files.now) frames.now d) × Outside result listed.old listed.new }
{
    let s = frames::start_at(frames, d);
    let c = frames::entry_at(frames, s);
    let h = fill_chain(files, keys, c, listed);
    fill_added(files, keys, frames, d, s, listed, h)
}
