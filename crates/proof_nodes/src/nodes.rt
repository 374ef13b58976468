// The refusal of a node at a sequent: 13 to 17, the lower number first.
// A rule has no name but its number.
ghost use Rattle.std.specs.Prelude.{◌≡◌, ◌<◌, ◌≤◌, length};
ghost use Rattle.reader.specs.Files.{words};
ghost use Rattle.reader.specs.Refusals.{fault_of};
ghost use Rattle.reader_equality.specs.Tables.{Zeros};
ghost use Rattle.reader.specs.Tests.{every};
ghost use Rattle.reader.specs.Trees.{tree, atom_of};
ghost use Rattle.reader_closedness.specs.Reaches.{Reached};
ghost use Rattle.reader.specs.Chains.{item_trees};
ghost use Rattle.proof_rules.specs.Rules.{Row, row};
ghost use Rattle.proof_rules.specs.Check.{node_fault};
ghost use Rattle.reader.specs.Members.{is_fresh};
ghost use Rattle.proof_members.specs.Sequents.{sequent, Ready};
ghost use Rattle.proof_nodes.specs.Nodes.{most_added, room_for, form_fault, fit_fault, At};

use proof_forms::{premises, shapes};
use proof_fresh::fresh;
use proof_references::{References, references_of};
use proof_rows::needs;
use reader::{Fault, Files};
use reader_chains::chains;

// The atom of record i's tree: 0 for record 0.
fn tree_atom(files: &Files, i: usize) -> usize
    ensures { result ≡ atom_of (tree (words files.now) i) }
{
    if i == 0 {
        return 0;
    }
    files.atom_at(i)
}

// Is the constant of rule k's parts fresh, where the rule has one? The parts are in chain c. The table is scratch, zeros before and zeros again.
fn constant_fresh(
    files: &Files,
    numbers: &[usize],
    memory: &[usize],
    scratch: &mut [usize],
    h: usize,
    k: usize,
    c: usize,
) -> bool
    requires { At (words files.now) numbers.now memory.now scratch.old h c }
    ensures { (result ≡ every (is_fresh (sequent (words files.now) memory.now h)) (row k (item_trees (words files.now) c)).fresh) × Zeros scratch.new }
{
    if k != 43 {
        return true;
    }
    let part = chains::item_at(files, c, 1);
    let constant = tree_atom(files, part);
    fresh::is_fresh(files, numbers, memory, scratch, h, constant)
}

// How many members a premise of rule k adds at most.
fn most_added(k: usize) -> usize
    ensures { (result ≡ most_added k) × (result ≤ 2) }
{
    if k < 37 {
        return 0;
    }
    if 46 < k {
        return 0;
    }
    if k == 39 {
        return 2;
    }
    if k == 40 {
        return 2;
    }
    1
}

// Have the premises of a node of kind k room beside h members?
fn has_room(h: usize, k: usize) -> bool
    requires { h ≤ 1024 }
    ensures { result ≡ room_for h k }
{
    h + most_added(k) <= 1024
}

// Refusals 13 and 14 of a node.
fn form_fault(
    files: &Files,
    numbers: &[usize],
    memory: &[usize],
    h: usize,
    node: References,
) -> Result<(), Fault>
    requires { Ready (words files.now) numbers.now memory.now h × (node.first < length numbers.now) }
    ensures { fault_of result ≡ form_fault (words files.now) (sequent (words files.now) memory.now h) node }
{
    let byte = proof_bytes::proof_byte(node.kind);
    if !shapes::shapes_fit(files, node.first, node.kind, byte) {
        return Err(Fault::Form);
    }
    if !premises::premises_fit(files, node.second, byte) {
        return Err(Fault::Form);
    }
    if !needs::needs_hold(files, numbers, memory, h, node.kind, node.first) {
        return Err(Fault::Member);
    }
    Ok(())
}

// Refusals 15 to 17 of a node. The table is scratch, zeros before and zeros again.
fn fit_fault(
    files: &Files,
    numbers: &[usize],
    reaches: &[usize],
    memory: &[usize],
    scratch: &mut [usize],
    h: usize,
    k: usize,
    c: usize,
) -> Result<(), Fault>
    requires { At (words files.now) numbers.now memory.now scratch.old h c × Reached (words files.now) reaches.now (length reaches.now) }
    ensures { (fault_of result ≡ fit_fault (words files.now) (sequent (words files.now) memory.now h) k c) × Zeros scratch.new }
{
    if !proof_fits::fits(files, numbers, reaches, scratch, k, c) {
        return Err(Fault::Fit);
    }
    if !constant_fresh(files, numbers, memory, scratch, h, k, c) {
        return Err(Fault::Fresh);
    }
    if !has_room(h, k) {
        return Err(Fault::Room);
    }
    Ok(())
}

// The refusal of node n at the sequent of h members. The table is scratch, zeros before and zeros again.
pub fn node_fault(
    files: &Files,
    numbers: &[usize],
    reaches: &[usize],
    memory: &[usize],
    scratch: &mut [usize],
    h: usize,
    n: usize,
) -> Result<(), Fault>
    requires { At (words files.now) numbers.now memory.now scratch.old h n × Reached (words files.now) reaches.now (length reaches.now) }
    ensures { (fault_of result ≡ node_fault (words files.now) (sequent (words files.now) memory.now h) n) × Zeros scratch.new }
{
    let node = references_of(files, n);
    form_fault(files, numbers, memory, h, node)?;
    fit_fault(
        files, numbers, reaches, memory, scratch, h, node.kind, node.first,
    )
}
