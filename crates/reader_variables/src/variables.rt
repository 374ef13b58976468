// Indices, type variables and closedness.
ghost use Rattle.std.specs.Prelude.{◌≡◌, length, ◌+◌, ◌<◌, ◌≤◌};
ghost use Rattle.reader.specs.Files.{words};
ghost use Rattle.reader_equality.specs.Least.{Numbered};
ghost use Rattle.reader.specs.Trees.{tree};
ghost use Rattle.reader.specs.Variables.{binders, bears, indices_below, types_below, is_closed};
ghost use Rattle.reader_variables.specs.Variables.{bound_at, below_parts, type_below_at, types_below_parts, index_at, bears_at};

use reader::Files;
use reader::kinds::Kind;
use reader_chains::parts::part_at;

// How many binders are crossed below word 2 of a record of kind k.
fn deeper(k: usize, c: usize) -> usize
    requires { c < 18446744073709551615 }
    ensures { (result ≡ c + binders k) × (result ≤ c + 1) }
{
    if k == Kind::ForAll as usize { c + 1 } else { c }
}

// Is record i, of kind k, no bound variable with an index from d + c on?
fn index_below(files: &Files, k: usize, i: usize, d: usize, c: usize) -> bool
    ensures { result ≡ bound_at (words files.now) k i (d + c) }
{
    if k != Kind::BoundVariable as usize {
        return true;
    }
    let a = files.word_at(i, 1);
    if a < c {
        return true;
    }
    a - c < d
}

// Have the parts of record i, of kind k, no index from d and the c binders crossed on?
#[cycle(below_at_below_parts)]
fn below_parts(files: &Files, k: usize, i: usize, d: usize, c: usize) -> bool
    requires { (0 < i) × (c + i < 18446744073709551616) }
    ensures { result ≡ below_parts (words files.now) k i d c }
{
    let x = part_at(files, k, i, 1);
    if !below_at(files, x, d, c) {
        return false;
    }
    let y = part_at(files, k, i, 2);
    if !below_at(files, y, d, deeper(k, c)) {
        return false;
    }
    let z = part_at(files, k, i, 3);
    below_at(files, z, d, c)
}

// Has record i no unbound index from d and the c binders crossed on?
#[cycle(below_at_below_parts)]
fn below_at(files: &Files, i: usize, d: usize, c: usize) -> bool
    requires { c + i < 18446744073709551616 }
    ensures { result ≡ indices_below (d + c) (tree (words files.now) i) }
{
    if i == 0 {
        return true;
    }
    let k = files.word_at(i, 0);
    if !index_below(files, k, i, d, c) {
        return false;
    }
    below_parts(files, k, i, d, c)
}

// Is every index of record i below d, or bound in it?
pub fn indices_below(files: &Files, i: usize, d: usize) -> bool
    ensures { result ≡ indices_below d (tree (words files.now) i) }
{
    below_at(files, i, d, 0)
}

// Is record i, of kind k, no type variable with a number from p on?
pub fn type_variable_below(files: &Files, k: usize, i: usize, p: usize) -> bool
    ensures { result ≡ type_below_at (words files.now) k i p }
{
    if k != Kind::TypeVariable as usize {
        return true;
    }
    files.word_at(i, 1) < p
}

// Have the parts of record i, of kind k, no type variable from p on?
#[cycle(types_below_types_below_parts)]
fn types_below_parts(files: &Files, k: usize, i: usize, p: usize) -> bool
    requires { 0 < i }
    ensures { result ≡ types_below_parts (words files.now) k i p }
{
    let x = part_at(files, k, i, 1);
    if !types_below(files, x, p) {
        return false;
    }
    let y = part_at(files, k, i, 2);
    if !types_below(files, y, p) {
        return false;
    }
    let z = part_at(files, k, i, 3);
    types_below(files, z, p)
}

// Is every type variable of record i below p?
#[cycle(types_below_types_below_parts)]
pub fn types_below(files: &Files, i: usize, p: usize) -> bool
    ensures { result ≡ types_below p (tree (words files.now) i) }
{
    if i == 0 {
        return true;
    }
    let k = files.word_at(i, 0);
    if !type_variable_below(files, k, i, p) {
        return false;
    }
    types_below_parts(files, k, i, p)
}

// Has record i no unbound index and no type variable?
pub fn is_closed(files: &Files, i: usize) -> bool
    ensures { result ≡ is_closed (tree (words files.now) i) }
{
    if !indices_below(files, i, 0) {
        return false;
    }
    types_below(files, i, 0)
}

// Is record i, of kind k, the bound variable with index d + c?
fn is_index(files: &Files, k: usize, i: usize, d: usize, c: usize) -> bool
    ensures { result ≡ index_at (words files.now) k i (d + c) }
{
    if k != Kind::BoundVariable as usize {
        return false;
    }
    let a = files.word_at(i, 1);
    if a < c {
        return false;
    }
    a - c == d
}

// Does every occurrence of index d in record i, below c binders crossed, bear type t?
fn bears_at(files: &Files, numbers: &[usize], i: usize, d: usize, c: usize, t: usize) -> bool
    requires { (c + i < 18446744073709551616) × Numbered (words files.now) numbers.now (length numbers.now) }
    ensures { result ≡ bears_at (words files.now) i (d + c) t }
{
    if i == 0 {
        return true;
    }
    let k = files.word_at(i, 0);
    if is_index(files, k, i, d, c) {
        let u = part_at(files, k, i, 2);
        return reader_comparison::numbers::same_at(files, numbers, u, t);
    }
    let x = part_at(files, k, i, 1);
    if !bears_at(files, numbers, x, d, c, t) {
        return false;
    }
    let y = part_at(files, k, i, 2);
    if !bears_at(files, numbers, y, d, deeper(k, c), t) {
        return false;
    }
    let z = part_at(files, k, i, 3);
    bears_at(files, numbers, z, d, c, t)
}

// Does every occurrence of index d in record i bear type t?
pub fn bears(files: &Files, numbers: &[usize], i: usize, d: usize, t: usize) -> bool
    requires { Numbered (words files.now) numbers.now (length numbers.now) }
    ensures { result ≡ bears d (tree (words files.now) t) (tree (words files.now) i) }
{
    bears_at(files, numbers, i, d, 0, t)
}
