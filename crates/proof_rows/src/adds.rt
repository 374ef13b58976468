// What a premise adds to the sequent.
ghost use Rattle.std.specs.Prelude.{◌≡◌, ◌+◌, ◌<◌, ◌≤◌, [], length, get_or};
ghost use Rattle.reader.specs.Files.{words};
ghost use Rattle.reader.specs.Chains.{item_trees};
ghost use Rattle.proof_rules.specs.Rules.{Row};
ghost use Rattle.proof_rules.specs.Check.{row_of};
ghost use Rattle.proof_members.specs.Sequents.{Ready};
ghost use Rattle.proof_rows.specs.Forms.{form_tree, one_tree};
ghost use Rattle.proof_rows.specs.Grown.{Grown, form_count};

use crate::{forms, tables};
use proof_references::references_of;
use reader::Files;

// Adds what the form says of the parts in chain c, or nothing where it is 0; the number of members after it.
fn add_one(
    files: &Files,
    numbers: &[usize],
    memory: &mut [usize],
    h: usize,
    c: usize,
    form: u8,
) -> usize
    requires { Ready (words files.now) numbers.now memory.old h × (h + form_count form ≤ 1024) × (c < length numbers.now) }
    ensures { Grown (words files.now) numbers.now memory.old h (one_tree (form_tree (item_trees (words files.now) c)) form) memory.new result }
{
    if form == 0 {
        return h;
    }
    memory[h] = forms::form_key(files, numbers, c, form);
    h + 1
}

// Adds what premise b of node n adds; the number of members after it.
pub fn add_premise(
    files: &Files,
    numbers: &[usize],
    memory: &mut [usize],
    h: usize,
    n: usize,
    b: usize,
) -> usize
    requires { Ready (words files.now) numbers.now memory.old h × (h + length (get_or (row_of (words files.now) n).adds b []) ≤ 1024) × (n < length numbers.now) }
    ensures { Grown (words files.now) numbers.now memory.old h (get_or (row_of (words files.now) n).adds b []) memory.new result }
{
    let node = references_of(files, n);
    let pair = tables::add_pair(node.kind, b);
    let first = tables::half(pair, 0);
    let last = tables::half(pair, 1);
    let i = add_one(files, numbers, memory, h, node.first, first);
    add_one(files, numbers, memory, i, node.first, last)
}
