// Types of terms, and the typing of constants, pairs, products, powersets, choices, ∀, = and ∈.
ghost use Rattle.std.specs.Prelude.{◌≡◌, length};
ghost use Rattle.reader.specs.Files.{words};
ghost use Rattle.reader_equality.specs.Least.{Numbered};
ghost use Rattle.reader.specs.Trees.{tree, lower, child};
ghost use Rattle.reader.specs.Typing.{constant_typed, pair_typed, product_typed, powerset_typed, choice_typed, for_all_typed, equal_typed, member_typed};
ghost use Rattle.reader_types.specs.Types.{type_at, part_type};

use crate::shapes;
use reader::Files;
use reader::kinds::Kind;
use reader_variables::variables;

// The record of an application's own type, the first of its types.
fn first_type(files: &Files, i: usize) -> usize
    ensures { result ≡ child (words files.now) (lower (words files.now) i 2) 1 }
{
    let types = files.lower_at(i, 2);
    files.child_at(types, 1)
}

// The record of term i's type, 0 where i is no term.
// No plainer with `Kind`: a function from numbers to kinds has to list them all again, in the code, in specs/ and in its proof.
pub fn type_at(files: &Files, i: usize) -> usize
    ensures { result ≡ type_at (words files.now) i }
{
    match files.word_at(i, 0) {
        7 => files.lower_at(i, 1), // constant
        9 => files.lower_at(i, 2), // bound variable
        10 => files.lower_at(i, 3), // pair
        11 => files.lower_at(i, 3), // product
        12 => files.lower_at(i, 2), // powerset
        13 => first_type(files, i), // application
        23 => files.lower_at(i, 2), // choice
        _ => 0, // no term
    }
}

// The type of the term that word w of record i refers to.
fn part_type(files: &Files, i: usize, w: u8) -> usize
    ensures { result ≡ part_type (words files.now) i w }
{
    let x = files.child_at(i, w);
    type_at(files, x)
}

// "A constant's type has no variable."
pub fn constant_typed(files: &Files, i: usize) -> bool
    ensures { result ≡ constant_typed (tree (words files.now) i) }
{
    let t = files.child_at(i, 1);
    variables::types_below(files, t, 0)
}

// "a pair of a τ and a υ is Pair(τ,υ)"
pub fn pair_typed(files: &Files, numbers: &[usize], i: usize) -> bool
    requires { Numbered (words files.now) numbers.now (length numbers.now) }
    ensures { result ≡ pair_typed (tree (words files.now) i) }
{
    let x = part_type(files, i, 1);
    let y = part_type(files, i, 2);
    let own = files.child_at(i, 3);
    shapes::is_pair_of(files, numbers, own, x, y)
}

// "a product of Set(τ), Set(υ) is Set(Pair(τ,υ))"
pub fn product_typed(files: &Files, numbers: &[usize], i: usize) -> bool
    requires { Numbered (words files.now) numbers.now (length numbers.now) }
    ensures { result ≡ product_typed (tree (words files.now) i) }
{
    let x = part_type(files, i, 1);
    if shapes::tree_kind(files, x) != Kind::SetType as usize {
        return false;
    }
    let y = part_type(files, i, 2);
    if shapes::tree_kind(files, y) != Kind::SetType as usize {
        return false;
    }
    let own = files.child_at(i, 3);
    let u = files.child_at(x, 1);
    let v = files.child_at(y, 1);
    shapes::is_set_of_pair(files, numbers, own, u, v)
}

// "a powerset of Set(τ) is Set(Set(τ))"
pub fn powerset_typed(files: &Files, numbers: &[usize], i: usize) -> bool
    requires { Numbered (words files.now) numbers.now (length numbers.now) }
    ensures { result ≡ powerset_typed (tree (words files.now) i) }
{
    let x = part_type(files, i, 1);
    if shapes::tree_kind(files, x) != Kind::SetType as usize {
        return false;
    }
    let own = files.child_at(i, 2);
    shapes::is_set_of(files, numbers, own, x)
}

// "s is of type Set(τ)", the choice's own type being τ
pub fn choice_typed(files: &Files, numbers: &[usize], i: usize) -> bool
    requires { Numbered (words files.now) numbers.now (length numbers.now) }
    ensures { result ≡ choice_typed (tree (words files.now) i) }
{
    let s = part_type(files, i, 1);
    let own = files.child_at(i, 2);
    shapes::is_set_of(files, numbers, s, own)
}

// "In ∀, each occurrence bound by it bears its type."
pub fn for_all_typed(files: &Files, numbers: &[usize], i: usize) -> bool
    requires { Numbered (words files.now) numbers.now (length numbers.now) }
    ensures { result ≡ for_all_typed (tree (words files.now) i) }
{
    let t = files.child_at(i, 1);
    let body = files.child_at(i, 2);
    variables::bears(files, numbers, body, 0, t)
}

// "= needs equal types"
pub fn equal_typed(files: &Files, numbers: &[usize], i: usize) -> bool
    requires { Numbered (words files.now) numbers.now (length numbers.now) }
    ensures { result ≡ equal_typed (tree (words files.now) i) }
{
    let x = part_type(files, i, 1);
    let y = part_type(files, i, 2);
    reader_comparison::numbers::same_at(files, numbers, x, y)
}

// "x ∈ s needs s of type Set(τ) for x of τ"
pub fn member_typed(files: &Files, numbers: &[usize], i: usize) -> bool
    requires { Numbered (words files.now) numbers.now (length numbers.now) }
    ensures { result ≡ member_typed (tree (words files.now) i) }
{
    let x = part_type(files, i, 1);
    let s = part_type(files, i, 2);
    shapes::is_set_of(files, numbers, s, x)
}
