// The refusal of a node at its depth: 13 to 18, the lower number first.
// A rule has no name but its number.
ghost use Rattle.std.specs.Prelude.{◌≡◌, ◌≤◌, length};
ghost use Rattle.reader.specs.Files.{words};
ghost use Rattle.reader.specs.Refusals.{fault_of};
ghost use Rattle.reader.specs.Trees.{lower};
ghost use Rattle.derivation_bytes.specs.Bytes.{derivation_byte};
ghost use Rattle.derivation_trees.specs.Keys.{decoded};
ghost use Rattle.derivation_known.specs.Known.{Known};
ghost use Rattle.derivation_paths.specs.Tables.{Tables};
ghost use Rattle.derivation_rules.specs.Check.{node_fault};
ghost use Rattle.derivation_frames.specs.Frames.{goal_at, members_at, state_of};
ghost use Rattle.derivation_members.specs.Needs.{At};
ghost use Rattle.derivation_fits.specs.Fits.{node_fits};
ghost use Rattle.derivation_nodes.specs.Rooms.{node_room};
ghost use Rattle.derivation_nodes.specs.Kept.{Passes};
ghost use Rattle.derivation_nodes.specs.Nodes.{Ready, members_fit, goal_shaped_at, premises_at, form_fault, fit_fault};

use crate::push::chain_length;
use derivation_fits::fits;
use derivation_forms::{formed, premises};
use derivation_frames::{frames, links};
use derivation_fresh::fresh;
use derivation_kept::kept;
use derivation_needs::needs;
use derivation_tables::tables;
use reader::{Fault, Files};

// Has the goal the form that rule k of node n shows?
fn goal_fits(files: &Files, keys: &[usize], frames: &[usize], d: usize, n: usize, k: usize) -> bool
    requires { At (words files.now) keys.now frames.now d n × (k ≡ words files.now n 0) }
    ensures { result ≡ goal_shaped_at (words files.now) (decoded (words files.now) (goal_at frames.now d)) n }
{
    let goal = frames::goal_at(frames, d);
    formed::goal_formed(files, keys, goal, k)
}

// Has node n, whose chain of premises is c, as many premises as its rule, each a rule node? `byte` is that of the rule.
fn premises_fit(files: &Files, n: usize, c: usize, byte: u8) -> bool
    requires { (byte ≡ derivation_byte (words files.now n 0)) × (c ≡ lower (words files.now) n 2) }
    ensures { result ≡ premises_at (words files.now) n }
{
    let count = reader_bytes::premises_of(byte);
    premises::premises_fit(files, n, c, count)
}

// Are the members there that node n, of rule k and with parts chain c, needs, and for BR1 no other?
fn members_fit(
    files: &Files,
    keys: &[usize],
    frames: &[usize],
    d: usize,
    n: usize,
    k: usize,
    c: usize,
) -> bool
    requires { At (words files.now) keys.now frames.now d n × (k ≡ words files.now n 0) × (c ≡ lower (words files.now) n 1) }
    ensures { result ≡ members_fit (words files.now) (members_at (words files.now) frames.now d) (decoded (words files.now) (goal_at frames.now d)) n }
{
    if !needs::needs_met(files, keys, frames, d, n, k, c) {
        return false;
    }
    needs::only_goal(files, keys, frames, d, n, k)
}

// Do the parts of node n fit, as its rule asks?
fn parts_fit(
    files: &Files,
    keys: &[usize],
    reaches: &[u16],
    known: &mut [usize],
    frames: &[usize],
    d: usize,
    n: usize,
) -> bool
    requires { At (words files.now) keys.now frames.now d n × Tables (words files.now) keys.now reaches.now × Known (words files.now) known.old }
    ensures { (result ≡ node_fits (words files.now) (decoded (words files.now) (goal_at frames.now d)) n) × Known (words files.now) known.new }
{
    let goal = frames::goal_at(frames, d);
    fits::fits(files, keys, reaches, known, goal, n)
}

// Have the premises of node n room beside h members?
fn room_beside(files: &Files, h: usize, n: usize) -> bool
    requires { h ≤ 262143 }
    ensures { result ≡ node_room (words files.now) h n }
{
    let k = files.word_at(n, 0);
    if k == 65 {
        let c = files.lower_at(n, 1);
        return chain_length(files, c) <= 2048;
    }
    let count = reader_bytes::premises_of(derivation_bytes::derivation_byte(k));
    if count == 0 {
        return true;
    }
    let more = tables::column(k, 2);
    h + more <= 2048
}

// Have the premises of node n, at depth d, room?
fn has_room(files: &Files, keys: &[usize], frames: &[usize], d: usize, n: usize) -> bool
    requires { At (words files.now) keys.now frames.now d n }
    ensures { result ≡ node_room (words files.now) (length (members_at (words files.now) frames.now d)) n }
{
    let h = frames::count_at(frames, d);
    room_beside(files, h, n)
}

// Refusals 13 and 14 of node n at depth d.
fn form_fault(
    files: &Files,
    keys: &[usize],
    frames: &[usize],
    d: usize,
    n: usize,
) -> Result<(), Fault>
    requires { At (words files.now) keys.now frames.now d n }
    ensures { fault_of result ≡ form_fault (words files.now) (state_of (words files.now) frames.now d) n }
{
    let x = links::node_at(files, n);
    let byte = derivation_bytes::derivation_byte(x.kind);
    if !formed::parts_formed(files, keys, n, x.kind, x.parts, byte) {
        return Err(Fault::Form);
    }
    if !goal_fits(files, keys, frames, d, n, x.kind) {
        return Err(Fault::Form);
    }
    if !premises_fit(files, n, x.premises, byte) {
        return Err(Fault::Form);
    }
    if !members_fit(files, keys, frames, d, n, x.kind, x.parts) {
        return Err(Fault::Member);
    }
    Ok(())
}

// Refusals 15 to 18 of node n at depth d. The table of reaches comes back as it was.
fn fit_fault(
    files: &Files,
    keys: &[usize],
    reaches: &mut [u16],
    known: &mut [usize],
    frames: &[usize],
    d: usize,
    n: usize,
) -> Result<(), Fault>
    requires { At (words files.now) keys.now frames.now d n × Ready (words files.now) keys.now reaches.old × Known (words files.now) known.old }
    ensures { (fault_of result ≡ fit_fault (words files.now) (state_of (words files.now) frames.now d) n) × (reaches.new ≡ reaches.old) × Known (words files.now) known.new }
{
    if !parts_fit(files, keys, reaches, known, frames, d, n) {
        return Err(Fault::Fit);
    }
    if !fresh::constant_fresh(files, keys, frames, reaches, known, d, n) {
        return Err(Fault::Fresh);
    }
    if !has_room(files, keys, frames, d, n) {
        return Err(Fault::Room);
    }
    if 8192 < d {
        return Err(Fault::Depth);
    }
    Ok(())
}

// Is node n one of BR2 that passes, found in one run along its parts? It may pass all the same, where the answer is no.
fn kept_passes(
    files: &Files,
    keys: &[usize],
    reaches: &[u16],
    frames: &[usize],
    d: usize,
    n: usize,
) -> bool
    requires { At (words files.now) keys.now frames.now d n × Tables (words files.now) keys.now reaches.now }
    ensures { Passes (words files.now) frames.now d n result }
{
    let x = links::node_at(files, n);
    if x.kind != 65 {
        return false;
    }
    let byte = derivation_bytes::derivation_byte(x.kind);
    if !premises_fit(files, n, x.premises, byte) {
        return false;
    }
    let s = frames::start_at(frames, d);
    let b = frames::entry_at(frames, s);
    if d <= 8192 {
        return kept::all_kept(files, keys, reaches, b, x.parts);
    }
    false
}

// The refusal of node n at depth d. The table of reaches comes back as it was.
pub fn node_fault(
    files: &Files,
    keys: &[usize],
    reaches: &mut [u16],
    known: &mut [usize],
    frames: &[usize],
    d: usize,
    n: usize,
) -> Result<(), Fault>
    requires { At (words files.now) keys.now frames.now d n × Ready (words files.now) keys.now reaches.old × Known (words files.now) known.old }
    ensures { (fault_of result ≡ node_fault (words files.now) (state_of (words files.now) frames.now d) n) × (reaches.new ≡ reaches.old) × Known (words files.now) known.new }
{
    if kept_passes(files, keys, reaches, frames, d, n) {
        return Ok(());
    }
    form_fault(files, keys, frames, d, n)?;
    fit_fault(files, keys, reaches, known, frames, d, n)
}
