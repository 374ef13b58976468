// Refusal 14: what must be in the sequent.
ghost use Rattle.std.specs.Prelude.{◌≡◌, ◌<◌, length};
ghost use Rattle.reader.specs.Files.{words};
ghost use Rattle.reader.specs.Chains.{item_trees};
ghost use Rattle.reader.specs.Members.{member};
ghost use Rattle.proof_members.specs.Sequents.{sequent, Ready};
ghost use Rattle.proof_rows.specs.Forms.{need_tree};
ghost use Rattle.proof_rows.specs.Tables.{needs_hold};

use crate::{forms, tables};
use proof_members::search;
use reader::Files;

// Is what the form says of the parts in chain c a member?
fn form_holds(
    files: &Files,
    numbers: &[usize],
    memory: &[usize],
    h: usize,
    c: usize,
    form: u8,
) -> bool
    requires { Ready (words files.now) numbers.now memory.now h × (c < length numbers.now) }
    ensures { result ≡ member (need_tree (item_trees (words files.now) c) form) (sequent (words files.now) memory.now h) }
{
    if form == 1 {
        return search::holds_false(files, numbers, memory, h);
    }
    if form == 2 {
        return search::holds_not_true(files, numbers, memory, h);
    }
    let key = forms::form_key(files, numbers, c, form);
    search::holds(files, numbers, memory, h, key)
}

// Are all members there that rule k needs, with the parts in chain c?
pub fn needs_hold(
    files: &Files,
    numbers: &[usize],
    memory: &[usize],
    h: usize,
    k: usize,
    c: usize,
) -> bool
    requires { Ready (words files.now) numbers.now memory.now h × (c < length numbers.now) }
    ensures { result ≡ needs_hold (sequent (words files.now) memory.now h) k (item_trees (words files.now) c) }
{
    let row = tables::need_row(k);
    let first = tables::half(row, 0);
    let last = tables::half(row, 1);
    if first == 0 {
        return true;
    }
    if !form_holds(files, numbers, memory, h, c, first) {
        return false;
    }
    if last == 0 {
        return true;
    }
    form_holds(files, numbers, memory, h, c, last)
}
