// Keys of members: equal members have equal keys.
ghost use Rattle.std.specs.Prelude.{◌≡◌, ◌+◌, ◌*◌, ◌<◌, ◌≤◌, length};
ghost use Rattle.reader.specs.Files.{words};
ghost use Rattle.reader.specs.Trees.{tree, ◌=ᵗ◌, ¬ᵗ◌};
ghost use Rattle.proof_references.specs.References.{ReferencesAre};
ghost use Rattle.proof_members.specs.Keys.{Stands};
ghost use Rattle.proof_members.specs.Makers.{BodyOf, Table};

use proof_references::{References, references_of};
use reader::Files;
use reader::kinds::Kind;
use reader_comparison::numbers::number_of;

// A body's key.
fn pack(equation: usize, left: usize, right: usize) -> usize
    requires { (equation < 2) × (left < 4096) × (right < 4096) }
    ensures { result ≡ equation + 2 * (right + 4096 * left) }
{
    equation + 2 * (right + 4096 * left)
}

// The key of the equation of records t and u.
fn equation_key(files: &Files, numbers: &[usize], t: usize, u: usize) -> usize
    requires { Table (words files.now) numbers.now × (t < length numbers.now) × (u < length numbers.now) }
    ensures { BodyOf (words files.now) (length numbers.now) result (tree (words files.now) t =ᵗ tree (words files.now) u) }
{
    let left = number_of(files, numbers, t);
    let right = number_of(files, numbers, u);
    pack(1, left, right)
}

// The key of record i as a body, which is x.
fn body_in(files: &Files, numbers: &[usize], i: usize, x: References) -> usize
    requires { Table (words files.now) numbers.now × (i < length numbers.now) × (0 < i) × ReferencesAre (words files.now) i x }
    ensures { BodyOf (words files.now) (length numbers.now) result (tree (words files.now) i) }
{
    if x.kind == Kind::Equal as usize {
        return equation_key(files, numbers, x.first, x.second);
    }
    let left = number_of(files, numbers, i);
    pack(0, left, 0)
}

// The key of record i as a body.
fn body_key(files: &Files, numbers: &[usize], i: usize) -> usize
    requires { Table (words files.now) numbers.now × (i < length numbers.now) }
    ensures { BodyOf (words files.now) (length numbers.now) result (tree (words files.now) i) }
{
    if i == 0 {
        return 0;
    }
    let x = references_of(files, i);
    body_in(files, numbers, i, x)
}

// The key of record i.
pub fn key_of(files: &Files, numbers: &[usize], i: usize) -> usize
    requires { Table (words files.now) numbers.now × (i < length numbers.now) }
    ensures { Stands (words files.now) (length numbers.now) result (tree (words files.now) i) }
{
    if i == 0 {
        return 0;
    }
    let x = references_of(files, i);
    if x.kind == Kind::Not as usize {
        return negated_key(files, numbers, x.first);
    }
    2 * body_in(files, numbers, i, x)
}

// The key of ¬ before record i.
pub fn negated_key(files: &Files, numbers: &[usize], i: usize) -> usize
    requires { Table (words files.now) numbers.now × (i < length numbers.now) }
    ensures { Stands (words files.now) (length numbers.now) result (¬ᵗ (tree (words files.now) i)) }
{
    2 * body_key(files, numbers, i) + 1
}

// The key of ¬(t = u).
pub fn unequal_key(files: &Files, numbers: &[usize], t: usize, u: usize) -> usize
    requires { Table (words files.now) numbers.now × (t < length numbers.now) × (u < length numbers.now) }
    ensures { Stands (words files.now) (length numbers.now) result (¬ᵗ (tree (words files.now) t =ᵗ tree (words files.now) u)) }
{
    2 * equation_key(files, numbers, t, u) + 1
}
