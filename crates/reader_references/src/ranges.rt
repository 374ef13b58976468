// Refusals 3 and 4: the kind of a record, and the ranges of its words.
ghost use Rattle.std.specs.Prelude.{◌≡◌};
ghost use Rattle.reader.specs.Files.{words};
ghost use Rattle.reader.specs.Kinds.{layout};
ghost use Rattle.reader.specs.KindLaws.{unpacked};
ghost use Rattle.reader.specs.Fetched.{RecordIs};
ghost use Rattle.reader.specs.Records.{kind_fits, in_range, ranges_fit};

use reader::kinds::Role;
use reader::{Files, Record, kinds};

// Is the kind k of record i one of a file of kind `mode`?
pub fn kind_fits(files: &Files, mode: u8, i: usize, k: usize) -> bool
    requires { k ≡ words files.now i 0 }
    ensures { result ≡ kind_fits mode (words files.now) i }
{
    kinds::is_kind(mode, k)
}

// Is word a in the range of its role? Most words are 0, or references, which may be any number here.
fn in_range(role: u8, a: usize) -> bool
    ensures { result ≡ in_range role a }
{
    if role == Role::Nothing as u8 {
        return a == 0;
    }
    if Role::Name as u8 <= role {
        return true;
    }
    if role == Role::To3 as u8 {
        return a < 4;
    }
    if role == Role::To4 as u8 {
        return a < 5;
    }
    if role == Role::To63 as u8 {
        return a < 64;
    }
    if role == Role::From1To4 as u8 {
        return reader::tests::is_between(1, 4, a);
    }
    true
}

// Are the words of record i, which are x, in the ranges that the row of its kind says?
pub fn ranges_fit(files: &Files, i: usize, x: Record, row: u32) -> bool
    requires { RecordIs (words files.now) i x × (unpacked row ≡ layout x.kind) }
    ensures { result ≡ ranges_fit (words files.now) i }
{
    if !in_range(kinds::first_in(row), x.a) {
        return false;
    }
    if !in_range(kinds::second_in(row), x.b) {
        return false;
    }
    in_range(kinds::third_in(row), x.c)
}
