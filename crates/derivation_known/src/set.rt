// A set of records behind the rows of facts, a bit for a record. It is closed under parts: a constant that is not in it is in no tree of its records.
ghost use Rattle.std.specs.Prelude.{◌≡◌, ◌+◌, ◌*◌, ◌<◌};
ghost use Rattle.reader.specs.Files.{words};
ghost use Rattle.reader.specs.Words.{word};
ghost use Rattle.derivation_known.specs.Held.{held, SameRows, Puts, ClosedFrom};
ghost use Rattle.derivation_known.specs.Known.{Facts, Known};
ghost use Rattle.derivation_known.specs.Included.{Includes};

use reader::Files;
use reader_equality::{shapes, tables};

// Is record j in the set? Past the table's end there is none.
pub fn is_held(known: &[usize], j: usize) -> bool
    ensures { result ≡ held known.now j }
{
    let word = tables::entry_at(known, 16384 + j / 64);
    (word >> (j % 64)) % 2 == 1
}

// Puts record j in, where there is room.
fn put(known: &mut [usize], j: usize)
    ensures { Puts known.old known.new j }
{
    let at = 16384 + j / 64;
    let word = tables::entry_at(known, at);
    tables::store(known, at, word | (1 << (j % 64)));
}

// Puts the record of a key in, where it has one.
pub fn put_key(known: &mut [usize], key: usize)
    ensures { SameRows known.old known.new }
{
    let body = key % 262144;
    if body < 2 {
        return;
    }
    put(known, body - 1);
}

// Takes every record out.
pub fn clear(known: &mut [usize])
    ensures { SameRows known.old known.new }
{
    if 16384 < known.len() {
        known[16384..].fill(0);
    }
}

// Puts the parts of record j in, where it is in the set. Of one that has no part it is record 0, which stands for none.
fn close_record(files: &Files, known: &mut [usize], j: usize)
    requires { Facts (words files.now) known.old × ClosedFrom (words files.now) known.old (j + 1) }
    ensures { Facts (words files.now) known.new × ClosedFrom (words files.now) known.new j }
{
    if !is_held(known, j) {
        return;
    }
    let x = files.record_at(j);
    let parts = shapes::parts_in(false, j, x);
    put(known, parts.first);
    put(known, parts.second);
    put(known, parts.third);
}

// Does so with the 64 records of word k, from the largest down: a part is a smaller record. Most words are 0.
fn close_word(files: &Files, known: &mut [usize], k: usize)
    requires { (k < 4096) × Facts (words files.now) known.old × ClosedFrom (words files.now) known.old (64 * k + 64) }
    ensures { Facts (words files.now) known.new × ClosedFrom (words files.now) known.new (64 * k) }
{
    if tables::entry_at(known, 16384 + k) == 0 {
        return;
    }
    for j in (64 * k..64 * k + 64).rev() {
        close_record(files, known, j);
    }
}

// Closes the set: each part of a record of it is put in.
pub fn close(files: &Files, known: &mut [usize])
    requires { Facts (words files.now) known.old }
    ensures { Known (words files.now) known.new }
{
    for k in (0..4096).rev() {
        close_word(files, known, k);
    }
}

// Puts record j in with all the records that its tree is made of, so that the set stays closed, where it is no deeper than `left` above those that are in it already.
// Says whether it is in.
fn include(files: &Files, known: &mut [usize], j: usize, left: usize) -> bool
    requires { Known (words files.now) known.old }
    ensures { Includes (words files.now) known.old known.new j result }
{
    if is_held(known, j) {
        return true;
    }
    if left == 0 {
        return false;
    }
    if j == 0 {
        put(known, j);
        return is_held(known, j);
    }
    let x = files.record_at(j);
    let parts = shapes::parts_in(false, j, x);
    if !include(files, known, parts.first, left - 1) {
        return false;
    }
    if !include(files, known, parts.second, left - 1) {
        return false;
    }
    if !include(files, known, parts.third, left - 1) {
        return false;
    }
    put(known, j);
    is_held(known, j)
}

// The same with the record of a key, where it has one.
pub fn include_key(files: &Files, known: &mut [usize], key: usize) -> bool
    requires { Known (words files.now) known.old }
    ensures { Known (words files.now) known.new }
{
    let body = key % 262144;
    if body < 2 {
        return true;
    }
    include(files, known, body - 1, 64)
}
