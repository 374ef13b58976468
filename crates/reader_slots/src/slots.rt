// A search tree of records for each bucket of keys, in one lent table of slots. However many keys share a bucket, a search takes no more turns than
// the parts of a key have bits: each turn goes left or right by another bit.
ghost use Rattle.std.specs.Prelude.{◌≡◌, ◌+◌, ◌*◌, ◌<◌, ◌≤◌, length, get_or};
ghost use Rattle.reader.specs.Files.{words};
ghost use Rattle.reader.specs.Fetched.{RecordIs};
ghost use Rattle.reader_equality.specs.Keys.{key_from};
ghost use Rattle.reader_equality.specs.Shapes.{shape_of};
ghost use Rattle.reader_slots.specs.Slots.{under, Placed, Ended, Put};

use reader::{Files, Record};
use reader_equality::{Key, keys, shapes};

// The record in slot k, 0 for none.
pub fn record_in(slots: &[u32], k: usize) -> usize
    requires { k < length slots.now }
    ensures { result ≡ get_or slots.now k 0 }
{
    slots[k] as usize
}

// The slot under record j on the side that a key says.
pub fn slot_under(j: usize, k: Key) -> usize
    requires { 4097 + 2 * j < 18446744073709551616 }
    ensures { result ≡ under j k }
{
    4096 + 2 * j + keys::side_of(k)
}

// The slot at which the search for a key among the records below i ends: one that has a record with that key, or a free one. The table has the
// parts of those records.
fn slot_of(
    files: &Files,
    types: bool,
    table: &[usize],
    slots: &[u32],
    i: usize,
    shape: u32,
    key: Key,
) -> usize
    requires { (shape ≡ shape_of key.kind) × (i ≤ length table.now) × (4096 + 2 * i ≤ length slots.now) × Placed (key_from (words files.now) types table.now) slots.now i }
    ensures { Ended (key_from (words files.now) types table.now) slots.now key i result }
{
    let mut slot = keys::bucket_of(key);
    let mut rest = key;
    let mut j = record_in(slots, slot);
    while j != 0 {
        let x = files.record_at(j);
        if keys::has_key(types, table, shape, j, x, key) {
            return slot;
        }
        slot = slot_under(j, rest);
        rest = keys::turned(rest);
        j = record_in(slots, slot);
    }
    slot
}

// The record with the key of record i, whose words are x, that is in the slots; where there is none, i is put in.
pub fn place(
    files: &Files,
    types: bool,
    table: &[usize],
    slots: &mut [u32],
    i: usize,
    x: Record,
) -> usize
    requires { (0 < i) × (i < 4294967296) × (i ≤ length table.now) × (4096 + 2 * i ≤ length slots.old) × Placed (key_from (words files.now) types table.now) slots.old i × RecordIs (words files.now) i x }
    ensures { Put (key_from (words files.now) types table.now) slots.old i result slots.new }
{
    let shape = shapes::shape_of(x.kind);
    let key = keys::key_in(types, table, shape, i, x);
    let slot = slot_of(files, types, table, slots, i, shape, key);
    let j = record_in(slots, slot);
    if j != 0 {
        return j;
    }
    slots[slot] = i as u32;
    i
}
