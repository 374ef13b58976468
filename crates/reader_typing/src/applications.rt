// Typing of functions and applications.
ghost use Rattle.std.specs.Prelude.{◌≡◌, ◌≤◌, min, length};
ghost use Rattle.reader.specs.Files.{words};
ghost use Rattle.reader.specs.Tests.{every};
ghost use Rattle.reader.specs.Chains.{item_trees};
ghost use Rattle.reader.specs.Variables.{types_below};
ghost use Rattle.reader.specs.Typing.{function_typed, application_typed};
ghost use Rattle.reader_equality.specs.Least.{Numbered};
ghost use Rattle.reader_equality.specs.Tables.{Zeros};
ghost use Rattle.reader_instances.specs.Instances.{Remembered};
ghost use Rattle.reader_instances.specs.Signatures.{Known};
ghost use Rattle.reader_typing.specs.Applications.{arguments_fit, signature_fits};

use reader::Files;
use reader_chains::chains;
use reader_instances::{instances, signatures};
use reader_types::types;

// The first n entries of a table, or all where it has fewer: how many they are.
fn within(n: usize, length: usize) -> usize
    ensures { (result ≡ min n length) × (result ≤ length) }
{
    if n < length { n } else { length }
}

// Have the items of chain c type variables below p?
fn items_below(files: &Files, seen: &mut [usize], c: usize, p: usize) -> bool
    requires { Known (words files.now) p seen.old }
    ensures { result ≡ every (types_below p) (item_trees (words files.now) c) }
{
    if c == 0 {
        return true;
    }
    let item = files.lower_at(c, 1);
    if !signatures::types_known(files, seen, item, p) {
        return false;
    }
    let rest = files.lower_at(c, 3);
    items_below(files, seen, rest, p)
}

// The same; the table is scratch, zeros before and zeros again.
fn signature_below(files: &Files, marks: &mut [usize], c: usize, p: usize) -> bool
    requires { Zeros marks.old }
    ensures { (result ≡ every (types_below p) (item_trees (words files.now) c)) × Zeros marks.new }
{
    let r = items_below(files, marks, c, p);
    marks.fill(0);
    r
}

// "Signatures use only variables below their parameter count." The table is scratch, zeros before and zeros again.
pub fn function_typed(files: &Files, seen: &mut [usize], f: usize) -> bool
    requires { Zeros seen.old }
    ensures { (result ≡ function_typed (words files.now) f) × Zeros seen.new }
{
    let p = files.word_at(f, 2);
    let types = files.lower_at(f, 1);
    let room = within(f, seen.len());
    signature_below(files, &mut seen[0..room], types, p)
}

// Are the types of the items of chain a those of chain s with the items of chain c put in, one by one?
fn arguments_fit(
    files: &Files,
    numbers: &[usize],
    seen: &mut [usize],
    a: usize,
    s: usize,
    c: usize,
) -> bool
    requires { Numbered (words files.now) numbers.now (length numbers.now) × Remembered (words files.now) c seen.old }
    ensures { result ≡ arguments_fit (words files.now) a s c }
{
    if a == 0 {
        return s == 0;
    }
    if s == 0 {
        return false;
    }
    let item = files.lower_at(a, 1);
    let t = types::type_at(files, item);
    let j = files.lower_at(s, 1);
    if !instances::fits_at(files, numbers, seen, t, j, c) {
        return false;
    }
    let rest = files.lower_at(a, 3);
    let others = files.lower_at(s, 3);
    arguments_fit(files, numbers, seen, rest, others, c)
}

// The same with type t before the arguments' types. The table has zeros before.
fn signature_fits(
    files: &Files,
    numbers: &[usize],
    seen: &mut [usize],
    t: usize,
    a: usize,
    s: usize,
    c: usize,
) -> bool
    requires { Numbered (words files.now) numbers.now (length numbers.now) × Zeros seen.old }
    ensures { result ≡ signature_fits (words files.now) t a s c }
{
    if s == 0 {
        return false;
    }
    let j = files.lower_at(s, 1);
    if !instances::fits_at(files, numbers, seen, t, j, c) {
        return false;
    }
    let others = files.lower_at(s, 3);
    arguments_fit(files, numbers, seen, a, others, c)
}

// The same; the table is scratch, zeros before and zeros again.
fn signature_holds(
    files: &Files,
    numbers: &[usize],
    seen: &mut [usize],
    t: usize,
    a: usize,
    s: usize,
    c: usize,
) -> bool
    requires { Numbered (words files.now) numbers.now (length numbers.now) × Zeros seen.old }
    ensures { (result ≡ signature_fits (words files.now) t a s c) × Zeros seen.new }
{
    let r = signature_fits(files, numbers, seen, t, a, s, c);
    seen.fill(0);
    r
}

// "an application fits its signature with the type arguments put in". The table is scratch, zeros before and zeros again.
pub fn application_typed(files: &Files, numbers: &[usize], seen: &mut [usize], i: usize) -> bool
    requires { Numbered (words files.now) numbers.now (length numbers.now) × Zeros seen.old }
    ensures { (result ≡ application_typed (words files.now) i) × Zeros seen.new }
{
    let f = files.lower_at(i, 1);
    let c = files.lower_at(i, 2);
    let p = files.word_at(f, 2);
    if !chains::has_links(files, c, p) {
        return false;
    }
    let t = files.lower_at(c, 1);
    let a = files.lower_at(i, 3);
    let s = files.lower_at(f, 1);
    let type_arguments = files.lower_at(c, 3);
    let room = within(f, seen.len());
    signature_holds(files, numbers, &mut seen[0..room], t, a, s, type_arguments)
}
