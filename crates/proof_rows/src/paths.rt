// What a rule names of its parts: a part, a child of it, or a child of that.
ghost use Rattle.std.specs.Prelude.{◌≡◌};
ghost use Rattle.reader.specs.Files.{words};
ghost use Rattle.reader.specs.Tests.{if_lt};
ghost use Rattle.proof_rows.specs.Paths.{child_in, step_record, path_record};

use proof_references::{References, references_of};
use reader::kinds::Role;
use reader::{Files, kinds};
use reader_chains::chains;

// What a word with this role refers to, where that is a part of the tree.
fn part_in(role: u8, x: usize) -> usize
    ensures { result ≡ if_lt role 10 0 x }
{
    if role < Role::Item as u8 { 0 } else { x }
}

// The first child of a record, or else its second.
fn child_in(x: References, a: u8) -> usize
    ensures { result ≡ child_in x a }
{
    if a == 1 {
        return part_in(kinds::role_of(x.kind, 1), x.first);
    }
    part_in(kinds::role_of(x.kind, 2), x.second)
}

// Record i itself, its first child, or its second.
fn step(files: &Files, i: usize, a: u8) -> usize
    ensures { result ≡ step_record (words files.now) i a }
{
    if a == 0 {
        return i;
    }
    let x = references_of(files, i);
    child_in(x, a)
}

// What stands on a path in the parts of chain c: 16 times the part, and two steps, the first times 4.
pub fn path_record(files: &Files, c: usize, p: u8) -> usize
    ensures { result ≡ path_record (words files.now) c p }
{
    let part = chains::item_at(files, c, (p / 16) as usize);
    let x = step(files, part, p / 4 % 4);
    step(files, x, p % 4)
}
