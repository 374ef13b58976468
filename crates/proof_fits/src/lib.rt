// Refusal 15 of a proof's nodes: letters that stand for one thing are equal, replacement, types, closedness.
// A rule has no name but its number.
#![tactic(auto)]

ghost use Rattle.std.specs.Prelude.{◌≡◌, length};
ghost use Rattle.reader.specs.Files.{words};
ghost use Rattle.reader.specs.Tests.{every};
ghost use Rattle.reader.specs.Chains.{item_trees};
ghost use Rattle.reader.specs.Variables.{is_closed};
ghost use Rattle.reader_closedness.specs.Reaches.{Reached};
ghost use Rattle.reader_equality.specs.Least.{Numbered};
ghost use Rattle.reader_equality.specs.Tables.{Zeros};
ghost use Rattle.proof_rules.specs.Rules.{Row, row};
ghost use Rattle.proof_rows.specs.Paths.{path_tree};
ghost use Rattle.proof_fits.specs.Fits.{equation, quantified, types_put, places, replaced_parts, equality, further, closed_from};

use proof_places::bears;
use proof_references::references_of;
use proof_replacement::is_replaced;
use proof_rows::paths;
use reader::Files;
use reader_chains::chains;
use reader_closedness::tests;
use reader_comparison::numbers;
use reader_instances::instances;
use reader_types::types;

// Are the items of chain c closed?
fn are_closed(files: &Files, reaches: &[usize], c: usize) -> bool
    requires { Reached (words files.now) reaches.now (length reaches.now) }
    ensures { result ≡ every is_closed (item_trees (words files.now) c) }
{
    let mut l = c;
    while l != 0 {
        let link = references_of(files, l);
        if !tests::is_closed(files, reaches, link.first) {
            return false;
        }
        l = link.third;
    }
    true
}

// ¬(t=t): is the one t the other?
fn fits_equation(files: &Files, numbers: &[usize], c: usize) -> bool
    requires { Numbered (words files.now) numbers.now (length numbers.now) }
    ensures { result ≡ equation (item_trees (words files.now) c) }
{
    let t = paths::path_record(files, c, 5);
    let u = paths::path_record(files, c, 6);
    numbers::same_at(files, numbers, t, u)
}

// The ∀ on path p, a term, and the ∀'s body with the term in it: has the term the ∀'s type, and is the body so? The table is scratch, zeros
// before and zeros again.
fn fits_quantified(
    files: &Files,
    numbers: &[usize],
    reaches: &[usize],
    seen: &mut [usize],
    c: usize,
    p: u8,
) -> bool
    requires { Numbered (words files.now) numbers.now (length numbers.now) × Reached (words files.now) reaches.now (length reaches.now) × Zeros seen.old }
    ensures { (result ≡ quantified (item_trees (words files.now) c) (path_tree (item_trees (words files.now) c) p)) × Zeros seen.new }
{
    let q = paths::path_record(files, c, p);
    let t = chains::item_at(files, c, 1);
    let instance = chains::item_at(files, c, 2);
    let wanted = files.child_at(q, 1);
    let body = files.child_at(q, 2);
    let own = types::type_at(files, t);
    if !numbers::same_at(files, numbers, own, wanted) {
        return false;
    }
    is_replaced(files, numbers, reaches, seen, instance, t, body)
}

// A kind 22, its instance and types: is the instance its formula with the types put in? The table is scratch, zeros before and zeros again.
fn fits_instance(files: &Files, numbers: &[usize], seen: &mut [usize], c: usize) -> bool
    requires { Numbered (words files.now) numbers.now (length numbers.now) × Zeros seen.old }
    ensures { (result ≡ types_put (item_trees (words files.now) c)) × Zeros seen.new }
{
    let rest = files.lower_at(c, 3);
    let formula = paths::path_record(files, c, 8);
    let instance = chains::item_at(files, c, 1);
    instances::same_instance(files, numbers, seen, instance, formula, rest)
}

// B, t, u, B(t), B(u): "t and u one type", that of each place of index 0, and the last two parts are B with them put in. The table
// is scratch, zeros before and zeros again.
fn fits_places(
    files: &Files,
    numbers: &[usize],
    reaches: &[usize],
    seen: &mut [usize],
    c: usize,
) -> bool
    requires { Numbered (words files.now) numbers.now (length numbers.now) × Reached (words files.now) reaches.now (length reaches.now) × Zeros seen.old }
    ensures { (result ≡ places (item_trees (words files.now) c)) × Zeros seen.new }
{
    let body = chains::item_at(files, c, 0);
    let t = chains::item_at(files, c, 1);
    let u = chains::item_at(files, c, 2);
    let t_type = types::type_at(files, t);
    let u_type = types::type_at(files, u);
    if !numbers::same_at(files, numbers, t_type, u_type) {
        return false;
    }
    if !bears(files, numbers, reaches, seen, body, t_type) {
        return false;
    }
    fits_replaced(files, numbers, reaches, seen, c, body, t, u)
}

// Are parts 3 and 4 of chain c record `body` with t and with u in place of index 0? The table is scratch, zeros before and zeros again.
fn fits_replaced(
    files: &Files,
    numbers: &[usize],
    reaches: &[usize],
    seen: &mut [usize],
    c: usize,
    body: usize,
    t: usize,
    u: usize,
) -> bool
    requires { Numbered (words files.now) numbers.now (length numbers.now) × Reached (words files.now) reaches.now (length reaches.now) × Zeros seen.old }
    ensures { (result ≡ replaced_parts (words files.now) c body t u) × Zeros seen.new }
{
    let one = chains::item_at(files, c, 3);
    let other = chains::item_at(files, c, 4);
    if !is_replaced(files, numbers, reaches, seen, one, t, body) {
        return false;
    }
    is_replaced(files, numbers, reaches, seen, other, u, body)
}

// "B is open in index 0 at most", and the places fit. The table is scratch, zeros before and zeros again.
fn fits_equality(
    files: &Files,
    numbers: &[usize],
    reaches: &[usize],
    seen: &mut [usize],
    c: usize,
) -> bool
    requires { Numbered (words files.now) numbers.now (length numbers.now) × Reached (words files.now) reaches.now (length reaches.now) × Zeros seen.old }
    ensures { (result ≡ equality (item_trees (words files.now) c)) × Zeros seen.new }
{
    let body = chains::item_at(files, c, 0);
    if !tests::indices_below(files, reaches, body, 1) {
        return false;
    }
    fits_places(files, numbers, reaches, seen, c)
}

// What rule k, one of 32 to 46, asks of the parts in chain c besides closedness. The table is scratch, zeros before and zeros again.
fn fits_further(
    files: &Files,
    numbers: &[usize],
    reaches: &[usize],
    seen: &mut [usize],
    k: usize,
    c: usize,
) -> bool
    requires { Numbered (words files.now) numbers.now (length numbers.now) × Reached (words files.now) reaches.now (length reaches.now) × Zeros seen.old }
    ensures { (result ≡ further k (item_trees (words files.now) c)) × Zeros seen.new }
{
    if k == 35 {
        return fits_equation(files, numbers, c);
    }
    if k < 43 {
        return true;
    }
    if k == 43 {
        return fits_quantified(files, numbers, reaches, seen, c, 4);
    }
    if k == 44 {
        return fits_quantified(files, numbers, reaches, seen, c, 0);
    }
    if k == 45 {
        return fits_instance(files, numbers, seen, c);
    }
    fits_equality(files, numbers, reaches, seen, c)
}

// The chain of the parts that rule k asks to be closed: all in chain c, or all but the first of 45 and 46.
fn closed_from(files: &Files, k: usize, c: usize) -> usize
    ensures { result ≡ closed_from (words files.now) k c }
{
    if k < 45 {
        return c;
    }
    files.lower_at(c, 3)
}

// Do the parts in chain c fit, as rule k asks? The table is scratch, zeros before and zeros again.
pub fn fits(
    files: &Files,
    numbers: &[usize],
    reaches: &[usize],
    seen: &mut [usize],
    k: usize,
    c: usize,
) -> bool
    requires { Numbered (words files.now) numbers.now (length numbers.now) × Reached (words files.now) reaches.now (length reaches.now) × Zeros seen.old }
    ensures { (result ≡ (row k (item_trees (words files.now) c)).fits) × Zeros seen.new }
{
    if k < 32 {
        return false;
    }
    if 46 < k {
        return false;
    }
    let closed = closed_from(files, k, c);
    if !are_closed(files, reaches, closed) {
        return false;
    }
    fits_further(files, numbers, reaches, seen, k, c)
}
