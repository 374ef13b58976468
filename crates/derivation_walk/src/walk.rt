// The walk: node, then premises in chain order. The sequent of a node is the frame of its depth.
ghost use Rattle.std.specs.Prelude.{◌≡◌, length};
ghost use Rattle.reader.specs.Files.{words};
ghost use Rattle.reader.specs.Refusals.{fault_of, answer_of};
ghost use Rattle.reader.specs.Trees.{lower};
ghost use Rattle.derivation_rules.specs.Check.{node_fault};
ghost use Rattle.derivation_frames.specs.Frames.{state_of, Kept};
ghost use Rattle.derivation_known.specs.Known.{Known};
ghost use Rattle.derivation_members.specs.Needs.{At};
ghost use Rattle.derivation_nodes.specs.Nodes.{Ready};
ghost use Rattle.derivation_walk.specs.Walked.{visit, follow};
ghost use Rattle.derivation_walk.specs.Turns.{Entering, Opened, Following};

use derivation_nodes::{nodes, push};
use reader::{Fault, Files, Refusal};

// The refusal of node n at depth d; where there is none, the frame of its first premise is written, which is that of depth d + 1.
fn enter(
    files: &Files,
    keys: &[usize],
    reaches: &mut [u16],
    known: &mut [usize],
    frames: &mut [usize; 32776],
    d: usize,
    n: usize,
) -> Result<(), Fault>
    requires { At (words files.now) keys.now frames.old d n × Ready (words files.now) keys.now reaches.old × Known (words files.now) known.old }
    ensures { (fault_of result ≡ node_fault (words files.now) (state_of (words files.now) frames.old d) n) × Opened (words files.now) (length keys.now) frames.old d n (fault_of result) frames.new × (reaches.new ≡ reaches.old) × Known (words files.now) known.new × (length frames.new ≡ length frames.old) }
{
    nodes::node_fault(files, keys, reaches, known, frames, d, n)?;
    let c = files.lower_at(n, 2);
    if c == 0 {
        return Ok(());
    }
    push::push_premise(files, keys, frames, d, n, 0);
    Ok(())
}

// The walk along the premises of node n, which was entered at depth d, where `entered` nodes were entered.
#[cycle(walk_links_walk_node)]
fn walk_links(
    files: &Files,
    keys: &[usize],
    reaches: &mut [u16],
    known: &mut [usize],
    frames: &mut [usize; 32776],
    d: usize,
    n: usize,
    entered: usize,
) -> Result<usize, Refusal>
    requires { Following (words files.now) keys.now frames.old d n entered × Ready (words files.now) keys.now reaches.old × Known (words files.now) known.old }
    ensures { (answer_of result ≡ follow (words files.now) (lower (words files.now) n 2) n 0 (state_of (words files.now) frames.old d) entered) × Kept d frames.old frames.new × (reaches.new ≡ reaches.old) × Known (words files.now) known.new × (length frames.new ≡ length frames.old) }
{
    let mut c = files.lower_at(n, 2);
    let mut b = 0;
    let mut count = entered;
    while c != 0 {
        let x = files.lower_at(c, 1);
        count = walk_node(files, keys, reaches, known, frames, d + 1, x, count)?;
        b += 1;
        c = files.lower_at(c, 3);
        if c != 0 {
            push::push_premise(files, keys, frames, d, n, b);
        }
    }
    Ok(count)
}

// The walk from node n at depth d, where `count` nodes were entered before it.
#[cycle(walk_links_walk_node)]
fn walk_node(
    files: &Files,
    keys: &[usize],
    reaches: &mut [u16],
    known: &mut [usize],
    frames: &mut [usize; 32776],
    d: usize,
    n: usize,
    count: usize,
) -> Result<usize, Refusal>
    requires { Entering (words files.now) keys.now frames.old d n count × Ready (words files.now) keys.now reaches.old × Known (words files.now) known.old }
    ensures { (answer_of result ≡ visit (words files.now) n (state_of (words files.now) frames.old d) count) × Kept d frames.old frames.new × (reaches.new ≡ reaches.old) × Known (words files.now) known.new × (length frames.new ≡ length frames.old) }
{
    match enter(files, keys, reaches, known, frames, d, n) {
        Ok(()) => walk_links(files, keys, reaches, known, frames, d, n, count + 1),
        Err(fault) => Err(Refusal {
            fault,
            file: 2,
            at: n,
            nodes: count + 1,
        }),
    }
}

// The walk from the root, whose frame is that of depth 1. The root is entered here and not by `walk_node`: the compiler puts a function that is called
// at one place into its caller, and the tables of a node's tests would then be in every frame of the walk's stack.
pub fn walk(
    files: &Files,
    keys: &[usize],
    reaches: &mut [u16],
    known: &mut [usize],
    frames: &mut [usize; 32776],
    root: usize,
) -> Result<usize, Refusal>
    requires { Entering (words files.now) keys.now frames.old 1 root 0 × Ready (words files.now) keys.now reaches.old × Known (words files.now) known.old }
    ensures { (answer_of result ≡ visit (words files.now) root (state_of (words files.now) frames.old 1) 0) × Kept 1 frames.old frames.new × (reaches.new ≡ reaches.old) × Known (words files.now) known.new }
{
    match enter(files, keys, reaches, known, frames, 1, root) {
        Ok(()) => walk_links(files, keys, reaches, known, frames, 1, root, 1),
        Err(fault) => Err(Refusal {
            fault,
            file: 2,
            at: root,
            nodes: 1,
        }),
    }
}
