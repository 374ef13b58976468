// Refusal 14: what must be in the sequent, and for BR1 what must not.
// A rule has no name but its number.
ghost use Rattle.std.specs.Prelude.{◌≡◌, ◌+◌, ◌<◌, [], length};
ghost use Rattle.reader.specs.Files.{words};
ghost use Rattle.reader.specs.Tests.{every};
ghost use Rattle.reader.specs.Trees.{lower};
ghost use Rattle.derivation_trees.specs.Keys.{decoded};
ghost use Rattle.derivation_trees.specs.Table.{Table};
ghost use Rattle.derivation_frames.specs.Frames.{goal_at, chain_trees, members_at};
ghost use Rattle.derivation_members.specs.Needs.{At, held, needs_held, only_goals};
ghost use Rattle.derivation_listed.specs.Listed.{Indexed, Space};
ghost use Rattle.derivation_listed.specs.Filled.{listed_trees, Filled};

use derivation_forms::forms;
use derivation_frames::{frames, links};
use derivation_listed::{filled, listed};
use derivation_members::members;
use derivation_tables::tables;
use derivation_trees::keys;
use reader::Files;

// Is every item of chain c one of the h trees that are listed?
fn items_listed(
    files: &Files,
    keys: &[usize],
    listed: &[usize],
    slots: &[u32],
    h: usize,
    c: usize,
) -> bool
    requires { Table (words files.now) keys.now × (c < length keys.now) × Space listed.now slots.now h × Indexed listed.now slots.now (h + 1) × Filled (words files.now) (length keys.now) listed.now h [] (listed_trees (words files.now) listed.now h 1) }
    ensures { result ≡ every (held (listed_trees (words files.now) listed.now h 1)) (chain_trees (words files.now) c) }
{
    let mut l = c;
    while l != 0 {
        let link = links::link_at(files, l);
        let x = keys::key_of(files, keys, link.item);
        if !listed::is_listed(listed, slots, h, x) {
            return false;
        }
        l = link.next;
    }
    true
}

// Is every item of chain c a member at depth d? The members are listed first, for there may be 2,048 items and as many members. This is called at two
// places: the compiler puts a function that is called at one place into its caller, and the tables would then be in the stack of every node.
fn many_held(files: &Files, keys: &[usize], frames: &[usize], d: usize, n: usize, c: usize) -> bool
    requires { At (words files.now) keys.now frames.now d n × (c < length keys.now) }
    ensures { result ≡ every (held (members_at (words files.now) frames.now d)) (chain_trees (words files.now) c) }
{
    let mut listed = [0usize; 2049];
    let mut slots = [0u32; 8194];
    let h = filled::fill(files, keys, frames, d, &mut listed);
    listed::place_all(&listed, &mut slots, h);
    items_listed(files, keys, &listed, &slots, h, c)
}

// The same, by looking up each item, which is sooner done for few members; the rest of a long chain by tables.
fn few_held(files: &Files, keys: &[usize], frames: &[usize], d: usize, n: usize, c: usize) -> bool
    requires { At (words files.now) keys.now frames.now d n × (c < length keys.now) }
    ensures { result ≡ every (held (members_at (words files.now) frames.now d)) (chain_trees (words files.now) c) }
{
    let mut l = c;
    let mut left: usize = 16;
    while l != 0 {
        if left == 0 {
            return many_held(files, keys, frames, d, n, l);
        }
        let link = links::link_at(files, l);
        let x = keys::key_of(files, keys, link.item);
        if !members::holds(files, keys, frames, d, x) {
            return false;
        }
        l = link.next;
        left -= 1;
    }
    true
}

// The same, by tables where members or frames are many.
fn items_held(files: &Files, keys: &[usize], frames: &[usize], d: usize, n: usize, c: usize) -> bool
    requires { At (words files.now) keys.now frames.now d n × (c < length keys.now) }
    ensures { result ≡ every (held (members_at (words files.now) frames.now d)) (chain_trees (words files.now) c) }
{
    if 16 < frames::count_at(frames, d) {
        return many_held(files, keys, frames, d, n, c);
    }
    if 16 < d - frames::start_at(frames, d) {
        return many_held(files, keys, frames, d, n, c);
    }
    few_held(files, keys, frames, d, n, c)
}

// Are the members there that node n, of kind k, with parts chain c and at depth d, needs? BR2 needs its parts.
pub fn needs_met(
    files: &Files,
    keys: &[usize],
    frames: &[usize],
    d: usize,
    n: usize,
    k: usize,
    c: usize,
) -> bool
    requires { At (words files.now) keys.now frames.now d n × (k ≡ words files.now n 0) × (c ≡ lower (words files.now) n 1) }
    ensures { result ≡ needs_held (words files.now) (members_at (words files.now) frames.now d) (decoded (words files.now) (goal_at frames.now d)) n }
{
    if k == 65 {
        return items_held(files, keys, frames, d, n, c);
    }
    let form = tables::column(k, 3);
    if form == 0 {
        return true;
    }
    let goal = frames::goal_at(frames, d);
    let key = forms::form_in(files, keys, goal, n, c, form);
    members::holds(files, keys, frames, d, key)
}

// For BR1, k is 64: is every member at depth d the goal?
pub fn only_goal(
    files: &Files,
    keys: &[usize],
    frames: &[usize],
    d: usize,
    n: usize,
    k: usize,
) -> bool
    requires { At (words files.now) keys.now frames.now d n × (k ≡ words files.now n 0) }
    ensures { result ≡ only_goals (words files.now) n (members_at (words files.now) frames.now d) (decoded (words files.now) (goal_at frames.now d)) }
{
    if k != 64 {
        return true;
    }
    let goal = frames::goal_at(frames, d);
    members::members_agree(files, keys, frames, d, goal, true)
}
