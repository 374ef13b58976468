// Refusals 5 and 6: references, and lengths of chains.
ghost use Rattle.std.specs.Prelude.{◌≡◌};
ghost use Rattle.reader.specs.Files.{words};
ghost use Rattle.reader.specs.Tests.{every};
ghost use Rattle.reader.specs.Chains.{items};
ghost use Rattle.reader.specs.Kinds.{layout};
ghost use Rattle.reader.specs.KindLaws.{unpacked};
ghost use Rattle.reader.specs.Records.{has_class, references_fit, types_fit, arguments_fit, item_chains_fit};
ghost use Rattle.reader.specs.Fetched.{RecordIs};
ghost use Rattle.reader_references.specs.References.{Packed, zero_in, class_in, points_well, points_in, points_fit, items_fit};

use reader::kinds::{Class, Kind, Role};
use reader::{Files, Record, chains, kinds};

// What a reference in this role must name, a hexadecimal digit each: 1 where it may be 0, and the class of the record. A `match`, as the compiler would write
// a `const` array to the stack at each use; looked up once for each reference.
fn reference_of(role: u8) -> u8
    ensures { Packed result role }
{
    match role {
        6 => Class::Name as u8, // name
        7 => 0x10 + Class::Name as u8, // next name record
        8 => 0x10 + Class::Link as u8, // chain of parts or premises
        9 => Class::Link as u8, // a function's chain of types
        10 => Class::None as u8, // item
        11 => 0x10 + Class::Link as u8, // next link
        12 => Class::Type as u8, // type
        13 => Class::Term as u8, // term
        14 => Class::Formula as u8, // formula
        15 => Class::Function as u8, // function
        16 => Class::Link as u8, // chain of types
        17 => 0x10 + Class::Link as u8, // chain of arguments
        _ => 0, // no reference
    }
}

// May it be 0?
fn zero_in(reference: u8) -> bool
    ensures { result ≡ zero_in reference }
{
    reference / 0x10 == 1
}

// The class that it asks for, 0 for any.
fn class_in(reference: u8) -> u8
    ensures { result ≡ class_in reference }
{
    reference % 0x10
}

// Has record j class c, 0 for any?
fn has_class(files: &Files, c: u8, j: usize) -> bool
    ensures { result ≡ has_class (words files.now) c j }
{
    if c == Class::None as u8 {
        return true;
    }
    let x = files.record_at(j);
    kinds::class_of(x.kind) == c
}

// Has every item of the chain from link j on class c?
fn every_item(files: &Files, c: u8, j: usize) -> bool
    ensures { result ≡ every (has_class (words files.now) c) (items (words files.now) j) }
{
    let mut at = j;
    while at != 0 {
        if !has_class(files, c, files.lower_at(at, 1)) {
            return false;
        }
        at = files.lower_at(at, 3);
    }
    true
}

// Does a, a reference of record i in this role, name a smaller record of the class that is asked for, or is it 0 where that is allowed?
fn points_well(files: &Files, i: usize, role: u8, a: usize) -> bool
    ensures { result ≡ points_well (words files.now) i role a }
{
    let reference = reference_of(role);
    if a == 0 {
        return zero_in(reference);
    }
    if i <= a {
        return false;
    }
    has_class(files, class_in(reference), a)
}

// The same of word a of record i in this role, where that is a reference.
fn points_in(files: &Files, i: usize, role: u8, a: usize) -> bool
    ensures { result ≡ points_in (words files.now) i role a }
{
    if role < Role::Name as u8 {
        return true;
    }
    points_well(files, i, role, a)
}

// The same of the words of record i, which are x; the kind has this row. Few kinds have a third reference.
fn points_fit(files: &Files, i: usize, x: Record, row: u32) -> bool
    requires { RecordIs (words files.now) i x × (unpacked row ≡ layout x.kind) }
    ensures { result ≡ points_fit (words files.now) i }
{
    if !points_in(files, i, kinds::first_in(row), x.a) {
        return false;
    }
    if !points_in(files, i, kinds::second_in(row), x.b) {
        return false;
    }
    let third = kinds::third_in(row);
    if third < Role::Name as u8 {
        return true;
    }
    points_well(files, i, third, x.c)
}

// Have the items of the chains of record i, whose words are x, the classes that are asked for? Only a function's and an application's chains ask for one.
fn items_fit(files: &Files, i: usize, x: Record) -> bool
    requires { RecordIs (words files.now) i x }
    ensures { result ≡ items_fit (words files.now) i }
{
    if x.kind == Kind::Function as usize {
        return every_item(files, Class::Type as u8, x.a);
    }
    if x.kind != Kind::Application as usize {
        return true;
    }
    if !every_item(files, Class::Type as u8, x.b) {
        return false;
    }
    every_item(files, Class::Term as u8, x.c)
}

// Do the references of record i fit, whose words are x and whose kind has this row?
pub fn references_fit(files: &Files, i: usize, x: Record, row: u32) -> bool
    requires { RecordIs (words files.now) i x × (unpacked row ≡ layout x.kind) }
    ensures { result ≡ references_fit (words files.now) i }
{
    if !points_fit(files, i, x, row) {
        return false;
    }
    items_fit(files, i, x)
}

// Has a chain of types 1 to 5 links?
fn types_fit(files: &Files, c: usize) -> bool
    ensures { result ≡ types_fit (words files.now) c }
{
    if c == 0 {
        return false;
    }
    chains::at_most(files, c, 5)
}

fn arguments_fit(files: &Files, c: usize) -> bool
    ensures { result ≡ arguments_fit (words files.now) c }
{
    chains::at_most(files, c, 4)
}

// Have the chains of types and of arguments of record i, whose words are x, their lengths? Only a function and an application have such.
pub fn item_chains_fit(files: &Files, i: usize, x: Record) -> bool
    requires { RecordIs (words files.now) i x }
    ensures { result ≡ item_chains_fit (words files.now) i }
{
    if x.kind == Kind::Function as usize {
        return types_fit(files, x.a);
    }
    if x.kind != Kind::Application as usize {
        return true;
    }
    if !types_fit(files, x.b) {
        return false;
    }
    arguments_fit(files, x.c)
}
