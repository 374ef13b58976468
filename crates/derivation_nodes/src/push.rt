// What a node hands to its premises: the frame of the next depth.
// A rule has no name but its number.
ghost use Rattle.std.specs.Prelude.{◌≡◌, ◌<◌, length};
ghost use Rattle.reader.specs.Files.{words};
ghost use Rattle.reader.specs.Trees.{lower};
ghost use Rattle.reader.specs.Chains.{linked};
ghost use Rattle.derivation_frames.specs.Frames.{state_of};
ghost use Rattle.derivation_members.specs.Needs.{At};
ghost use Rattle.derivation_nodes.specs.Premised.{Passed, Premised, premise_count};

use derivation_forms::forms;
use derivation_frames::{frames, links};
use derivation_tables::tables;
use reader::Files;

// How many links chain c has.
pub fn chain_length(files: &Files, c: usize) -> usize
    ensures { result ≡ length (linked (words files.now) c) }
{
    let mut l = c;
    let mut count = 0;
    while l != 0 {
        count += 1;
        l = links::link_at(files, l).next;
    }
    count
}

// BR2: the parts of node n, whose chain is c, are the members of its premise.
fn push_parts(
    files: &Files,
    keys: &[usize],
    frames: &mut [usize],
    d: usize,
    n: usize,
    c: usize,
    b: usize,
)
    requires { At (words files.now) keys.now frames.old d n × Passed (words files.now) (state_of (words files.now) frames.old d) n × (b < premise_count (words files.now) (state_of (words files.now) frames.old d) n) × (words files.now n 0 ≡ 65) × (c ≡ lower (words files.now) n 1) }
    ensures { Premised (words files.now) (length keys.now) d n b frames.old frames.new }
{
    let goal = frames::goal_at(frames, d);
    let count = chain_length(files, c);
    frames::write(frames, d + 1, d + 1, goal, c, count);
}

// Writes the frame of premise b of node n, at depth d + 1.
pub fn push_premise(
    files: &Files,
    keys: &[usize],
    frames: &mut [usize],
    d: usize,
    n: usize,
    b: usize,
)
    requires { At (words files.now) keys.now frames.old d n × Passed (words files.now) (state_of (words files.now) frames.old d) n × (b < premise_count (words files.now) (state_of (words files.now) frames.old d) n) }
    ensures { Premised (words files.now) (length keys.now) d n b frames.old frames.new }
{
    let x = links::node_at(files, n);
    if x.kind == 65 {
        push_parts(files, keys, frames, d, n, x.parts, b);
        return;
    }
    let goal = frames::goal_at(frames, d);
    let start = frames::start_at(frames, d);
    let count = frames::count_at(frames, d);
    let g = tables::goal_of(x.kind, b);
    let e = tables::added_by(x.kind, b);
    let key = forms::form_in(files, keys, goal, n, x.parts, g);
    if e == 0 {
        frames::write(frames, d + 1, start, key, 0, count);
        return;
    }
    let added = forms::form_in(files, keys, goal, n, x.parts, e);
    frames::write(frames, d + 1, start, key, added + 1, count + 1);
}
