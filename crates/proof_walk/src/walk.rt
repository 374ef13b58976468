// The walk: node, then premises in chain order. The sequent is the first h keys of the memory; a premise's members are stored behind them.
ghost use Rattle.std.specs.Prelude.{◌≡◌, true, ◌+◌, ◌<◌, ◌≤◌, length, take};
ghost use Rattle.reader.specs.Files.{words};
ghost use Rattle.reader.specs.Refusals.{answer_of};
ghost use Rattle.reader.specs.Kinds.{is_rule};
ghost use Rattle.reader_closedness.specs.Reaches.{Reached};
ghost use Rattle.reader_equality.specs.Tables.{Zeros};
ghost use Rattle.proof_rules.specs.Check.{node_fault, premise_sequent};
ghost use Rattle.reader_laws.specs.Under.{under, under_links};
ghost use Rattle.proof_members.specs.Sequents.{sequent};
ghost use Rattle.proof_nodes.specs.Nodes.{At};
ghost use Rattle.proof_walk.specs.Walked.{visit, follow, AreNodes};

use proof_nodes::nodes;
use proof_references::references_of;
use proof_rows::adds;
use reader::{Fault, Files, Refusal};

// The walk at premise b of node n, which is node x.
#[cycle(walk_links_walk_node_walk_premise)]
fn walk_premise(
    files: &Files,
    numbers: &[usize],
    reaches: &[usize],
    memory: &mut [usize],
    scratch: &mut [usize],
    h: usize,
    x: usize,
    n: usize,
    b: usize,
    count: usize,
) -> Result<usize, Refusal>
    requires { At (words files.now) numbers.now memory.old scratch.old h x × (n < length numbers.now) × (node_fault (words files.now) (sequent (words files.now) memory.old h) n ≡ 0) × (is_rule 1 (words files.now x 0) ≡ true) × (count + under 1 (words files.now) x ≤ 4294967296) × Reached (words files.now) reaches.now (length reaches.now) }
    ensures { (answer_of result ≡ visit (words files.now) x (premise_sequent (words files.now) (sequent (words files.now) memory.old h) n b) count) × (take h memory.new ≡ take h memory.old) × Zeros scratch.new }
{
    let i = adds::add_premise(files, numbers, memory, h, n, b);
    walk_node(files, numbers, reaches, memory, scratch, i, x, count)
}

// The walk along the premises of node n from premise b on, which link c names.
#[cycle(walk_links_walk_node_walk_premise)]
fn walk_links(
    files: &Files,
    numbers: &[usize],
    reaches: &[usize],
    memory: &mut [usize],
    scratch: &mut [usize],
    h: usize,
    c: usize,
    n: usize,
    b: usize,
    count: usize,
) -> Result<usize, Refusal>
    requires { At (words files.now) numbers.now memory.old scratch.old h c × (n < length numbers.now) × (node_fault (words files.now) (sequent (words files.now) memory.old h) n ≡ 0) × AreNodes (words files.now) c × (count + under_links 1 (words files.now) c ≤ 4294967296) × (b + c ≤ 4294967296) × Reached (words files.now) reaches.now (length reaches.now) }
    ensures { (answer_of result ≡ follow (words files.now) c n b (sequent (words files.now) memory.old h) count) × (take h memory.new ≡ take h memory.old) × Zeros scratch.new }
{
    if c == 0 {
        return Ok(count);
    }
    let link = references_of(files, c);
    let entered = walk_premise(
        files, numbers, reaches, memory, scratch, h, link.first, n, b, count,
    )?;
    if link.third == 0 {
        return Ok(entered);
    }
    walk_links(
        files,
        numbers,
        reaches,
        memory,
        scratch,
        h,
        link.third,
        n,
        b + 1,
        entered,
    )
}

// The walk from node n, where `count` nodes were entered before it. Where it accepts, how many are entered then.
#[cycle(walk_links_walk_node_walk_premise)]
pub fn walk_node(
    files: &Files,
    numbers: &[usize],
    reaches: &[usize],
    memory: &mut [usize],
    scratch: &mut [usize],
    h: usize,
    n: usize,
    count: usize,
) -> Result<usize, Refusal>
    requires { At (words files.now) numbers.now memory.old scratch.old h n × (is_rule 1 (words files.now n 0) ≡ true) × (count + under 1 (words files.now) n ≤ 4294967296) × Reached (words files.now) reaches.now (length reaches.now) }
    ensures { (answer_of result ≡ visit (words files.now) n (sequent (words files.now) memory.old h) count) × (take h memory.new ≡ take h memory.old) × Zeros scratch.new }
{
    if n == 0 {
        return Err(Refusal {
            fault: Fault::Form,
            file: 2,
            at: 0,
            nodes: count,
        });
    }
    let entered = count + 1;
    if let Err(fault) = nodes::node_fault(files, numbers, reaches, memory, scratch, h, n) {
        return Err(Refusal {
            fault,
            file: 2,
            at: n,
            nodes: entered,
        });
    }
    let links = files.lower_at(n, 2);
    if links == 0 {
        return Ok(entered);
    }
    walk_links(
        files, numbers, reaches, memory, scratch, h, links, n, 0, entered,
    )
}
