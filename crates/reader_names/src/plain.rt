// Names whose bytes are plain, below 128: each byte is a character, so that such a name is told from others by the bytes of its records.
ghost use Rattle.std.specs.Prelude.{◌≡◌, eqb};
ghost use Rattle.reader.specs.Files.{words};
ghost use Rattle.reader.specs.Tests.{both, if_lt};
ghost use Rattle.reader.specs.Chains.{linked};
ghost use Rattle.reader_names.specs.Plain.{is_plain_word, is_plain, plain_name, records_differ};

use crate::symbols;
use reader::{Files, Record};

// Are the four bytes of a word plain?
fn is_plain_word(w: usize) -> bool
    ensures { result ≡ is_plain_word w }
{
    if 128 <= w % 256 {
        return false;
    }
    if 128 <= w / 256 % 256 {
        return false;
    }
    if 128 <= w / 65536 % 256 {
        return false;
    }
    if 128 <= w / 16777216 % 256 {
        return false;
    }
    true
}

// Are the bytes of a name record plain?
fn is_plain_record(x: Record) -> bool
    ensures { result ≡ both (is_plain_word x.a) (is_plain_word x.b) }
{
    if !is_plain_word(x.a) {
        return false;
    }
    is_plain_word(x.b)
}

// The name record after record r, whose words are x; 0 for none.
fn after(x: Record, r: usize) -> usize
    ensures { result ≡ if_lt x.c r x.c 0 }
{
    if x.c < r { x.c } else { 0 }
}

// Are the bytes of the name whose first record is `first` plain?
fn is_plain(files: &Files, first: usize) -> bool
    ensures { result ≡ is_plain (words files.now) first }
{
    let mut r = first;
    while r != 0 {
        let x = files.record_at(r);
        if !is_plain_record(x) {
            return false;
        }
        r = after(x, r);
    }
    true
}

// The first record of symbol i's name, where its bytes are plain; else 0.
pub fn plain_name(files: &Files, i: usize) -> usize
    ensures { result ≡ plain_name (words files.now) i }
{
    let first = symbols::name_of(files, i);
    if is_plain(files, first) { first } else { 0 }
}

// Have two name records the same bytes?
fn same_bytes(x: Record, y: Record) -> bool
    ensures { result ≡ both (eqb x.a y.a) (eqb x.b y.b) }
{
    x.a == y.a && x.b == y.b
}

// Do the names whose first records are `first` and `other` differ in a record? Not where one ends before.
pub fn records_differ(files: &Files, first: usize, other: usize) -> bool
    ensures { result ≡ records_differ (words files.now) (linked (words files.now) first) (linked (words files.now) other) }
{
    let mut r = first;
    let mut s = other;
    while r != 0 {
        if s == 0 {
            return false;
        }
        let x = files.record_at(r);
        let y = files.record_at(s);
        if !same_bytes(x, y) {
            return true;
        }
        r = after(x, r);
        s = after(y, s);
    }
    false
}
