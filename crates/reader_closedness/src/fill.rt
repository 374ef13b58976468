// Fills the table, records rising: entry 2 i has the reach of record i's indices, entry 2 i + 1 that of its type variables.
ghost use Rattle.std.specs.Prelude.{◌≡◌, ◌+◌, ◌*◌, ◌<◌, length};
ghost use Rattle.reader.specs.Files.{words};
ghost use Rattle.reader.specs.Fetched.{RecordIs};
ghost use Rattle.reader_closedness.specs.Reach.{own_reach};
ghost use Rattle.reader_closedness.specs.Reaches.{Reached};
ghost use Rattle.reader_closedness.specs.Filled.{PartsBelow, reach_in};

use crate::reaches::{entry_of, larger, reach_at, under, variable};
use reader::{Files, Record};
use reader_equality::{Parts, shapes};

// Record i: its words are no larger than a word.
fn record_at(files: &Files, i: usize) -> Record
    ensures { RecordIs (words files.now) i result × (result.a < 4294967296) }
{
    files.record_at(i)
}

// What a record, whose words are v, reaches for itself.
fn own_in(types: bool, v: Record) -> usize
    requires { v.a < 4294967296 }
    ensures { result ≡ own_reach types v.kind v.a }
{
    if v.kind != variable(types) {
        return 0;
    }
    v.a + 1
}

// How far a record reaches, whose words are v and whose parts the table has.
fn reach_in(reaches: &[usize], types: bool, v: Record, parts: Parts) -> usize
    requires { (v.a < 4294967296) × PartsBelow parts (length reaches.now) }
    ensures { result ≡ reach_in reaches.now types v parts }
{
    let own = own_in(types, v);
    let x = entry_of(reaches, types, parts.first);
    let y = entry_of(reaches, types, parts.second);
    let z = entry_of(reaches, types, parts.third);
    larger(own, larger(x, larger(under(types, v.kind, y), z)))
}

// Makes both entries of record i, which is fetched once.
fn reach_record(files: &Files, reaches: &mut [usize], i: usize)
    requires { (2 * i + 1 < length reaches.old) × Reached (words files.now) reaches.old (2 * i) }
    ensures { Reached (words files.now) reaches.new (2 * i + 2) }
{
    if i == 0 {
        reaches[0] = 0;
        reaches[1] = 0;
        return;
    }
    let v = record_at(files, i);
    let parts = shapes::parts_in(true, i, v);
    let indices = reach_in(reaches, false, v, parts);
    let types = reach_in(reaches, true, v, parts);
    reaches[2 * i] = indices;
    reaches[2 * i + 1] = types;
}

// Fills the table; past the end of the files a record reads as zeros. When a record's entries are made, the table has its parts. A last entry that
// stands alone is made by the recursion.
pub fn reach_all(files: &Files, reaches: &mut [usize])
    ensures { Reached (words files.now) reaches.new (length reaches.new) }
{
    let n = reaches.len() / 2;
    for i in 0..n {
        reach_record(files, reaches, i);
    }
    if 2 * n < reaches.len() {
        reaches[2 * n] = reach_at(files, reaches, n, false, n);
    }
}
