// Tests on every member of a sequent: is it one formula, or another, as wanted?
ghost use Rattle.std.specs.Prelude.{◌≡◌, suc, ◌-◌, ◌<◌, ◌≤◌, length};
ghost use Rattle.reader.specs.Files.{words};
ghost use Rattle.reader.specs.Tests.{every};
ghost use Rattle.derivation_trees.specs.Keys.{decoded, Normal};
ghost use Rattle.derivation_trees.specs.Table.{Table};
ghost use Rattle.reader.specs.Members.{member};
ghost use Rattle.derivation_frames.specs.Frames.{start_at, added_by, added_from, chain_trees, members_at, Framed};
ghost use Rattle.derivation_members.specs.Members.{agrees};

use derivation_frames::{frames, links};
use derivation_trees::keys;
use reader::Files;

// Is the tree with key x that with the other key, or another, as wanted?
fn key_agrees(files: &Files, keys: &[usize], x: usize, key: usize, wanted: bool) -> bool
    requires { Normal (words files.now) (length keys.now) x × Normal (words files.now) (length keys.now) key }
    ensures { result ≡ agrees (words files.now) key wanted (decoded (words files.now) x) }
{
    if wanted {
        return x == key;
    }
    x != key
}

// Is every item of chain c so?
fn chain_agrees(files: &Files, keys: &[usize], c: usize, key: usize, wanted: bool) -> bool
    requires { Table (words files.now) keys.now × (c < length keys.now) × Normal (words files.now) (length keys.now) key }
    ensures { result ≡ every (agrees (words files.now) key wanted) (chain_trees (words files.now) c) }
{
    let mut l = c;
    while l != 0 {
        let link = links::link_at(files, l);
        let x = keys::key_of(files, keys, link.item);
        if !key_agrees(files, keys, x, key, wanted) {
            return false;
        }
        l = link.next;
    }
    true
}

// Is what entry e of a frame adds so? An entry is a key and one: so one comparison tells that another is wanted and there, or none.
fn entry_agrees(files: &Files, keys: &[usize], e: usize, key: usize, wanted: bool) -> bool
    requires { ((e ≡ 0 → ⊥) → Normal (words files.now) (length keys.now) (e - 1)) × Normal (words files.now) (length keys.now) key × (length keys.now ≤ 250000) }
    ensures { result ≡ every (agrees (words files.now) key wanted) (added_by (words files.now) e) }
{
    if !wanted {
        return e != key + 1;
    }
    if e == 0 {
        return true;
    }
    e - 1 == key
}

// Is every member so that the frames above depth s, to depth d, add?
fn added_agrees(
    files: &Files,
    keys: &[usize],
    frames: &[usize],
    d: usize,
    s: usize,
    key: usize,
    wanted: bool,
) -> bool
    requires { Framed (words files.now) (length keys.now) frames.now d × (s ≡ start_at frames.now d) × Normal (words files.now) (length keys.now) key × (length keys.now ≤ 250000) }
    ensures { result ≡ every (agrees (words files.now) key wanted) (added_from (words files.now) frames.now (d - s) (suc s)) }
{
    for f in s..d {
        let e = frames::entry_at(frames, f + 1);
        if !entry_agrees(files, keys, e, key, wanted) {
            return false;
        }
    }
    true
}

// Is every member at depth d the formula with this key, or another, as wanted?
pub fn members_agree(
    files: &Files,
    keys: &[usize],
    frames: &[usize],
    d: usize,
    key: usize,
    wanted: bool,
) -> bool
    requires { Table (words files.now) keys.now × Framed (words files.now) (length keys.now) frames.now d × Normal (words files.now) (length keys.now) key × (length keys.now ≤ 250000) }
    ensures { result ≡ every (agrees (words files.now) key wanted) (members_at (words files.now) frames.now d) }
{
    let s = frames::start_at(frames, d);
    let c = frames::entry_at(frames, s);
    if !chain_agrees(files, keys, c, key, wanted) {
        return false;
    }
    added_agrees(files, keys, frames, d, s, key, wanted)
}

// Is the formula with this key a member at depth d?
pub fn holds(files: &Files, keys: &[usize], frames: &[usize], d: usize, key: usize) -> bool
    requires { Table (words files.now) keys.now × Framed (words files.now) (length keys.now) frames.now d × Normal (words files.now) (length keys.now) key × (length keys.now ≤ 250000) }
    ensures { result ≡ member (decoded (words files.now) key) (members_at (words files.now) frames.now d) }
{
    !members_agree(files, keys, frames, d, key, false)
}
