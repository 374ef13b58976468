// Symbols in the slots of a search tree, by the keys of their names.
ghost use Rattle.std.specs.Prelude.{◌≡◌, ◌+◌, ◌*◌, ◌<◌, ◌≤◌, length};
ghost use Rattle.reader.specs.Files.{words};
ghost use Rattle.reader_equality.specs.Keys.{same_key};
ghost use Rattle.reader_slots.specs.Slots.{Placed, Ended};
ghost use Rattle.reader_names.specs.NameKeys.{mixed, name_parts, name_key};
ghost use Rattle.reader_names.specs.Plain.{Apart};
ghost use Rattle.reader_names.specs.Taken.{Room, Names, Looked};

use crate::{keys, plain, symbols};
use reader::Files;
use reader_equality::Key;
use reader_slots::slots;

// Has symbol j these dealt characters? Where the records of the name at `plain` tell j from it, its characters are not read.
fn has_parts(files: &Files, plain: usize, parts: Key, j: usize) -> bool
    requires { Apart (words files.now) plain parts }
    ensures { result ≡ same_key (name_parts (words files.now) j) parts }
{
    let first = symbols::name_of(files, j);
    if plain::records_differ(files, plain, first) {
        return false;
    }
    keys::parts_of(files, j) == parts
}

// The slot at which the search for the key of symbol i, whose dealt characters are `parts`, among the symbols below i ends: one that has a symbol with that key, or
// a free one.
fn slot_of(files: &Files, slots: &[u32], plain: usize, parts: Key, i: usize) -> usize
    requires { (4096 + 2 * i ≤ length slots.now) × (parts ≡ name_parts (words files.now) i) × Apart (words files.now) plain parts × Placed (name_key (words files.now)) slots.now i }
    ensures { Ended (name_key (words files.now)) slots.now (mixed parts) i result }
{
    let mut rest = keys::mixed(parts);
    let mut slot = reader_equality::keys::bucket_of(rest);
    let mut j = slots::record_in(slots, slot);
    while j != 0 {
        if has_parts(files, plain, parts, j) {
            return slot;
        }
        slot = slots::slot_under(j, rest);
        rest = reader_equality::keys::turned(rest);
        j = slots::record_in(slots, slot);
    }
    slot
}

// The symbol in the slots with the key of record i; where there is none, i is put in. A record with no key stays out.
pub fn enter(files: &Files, slots: &mut [u32], i: usize) -> usize
    requires { (0 < i) × Room slots.old i × Names (words files.now) slots.old i }
    ensures { Looked (words files.now) i result slots.new }
{
    let parts = keys::parts_of(files, i);
    if parts.kind == 0 {
        return i;
    }
    let plain = plain::plain_name(files, i);
    let slot = slot_of(files, slots, plain, parts, i);
    let j = slots::record_in(slots, slot);
    if j != 0 {
        return j;
    }
    slots[slot] = i as u32;
    i
}

// Enters record i. Most records name nothing, and are passed over.
fn enter_one(files: &Files, slots: &mut [u32], i: usize)
    requires { (0 < i) × Room slots.old i × Names (words files.now) slots.old i }
    ensures { Names (words files.now) slots.new (i + 1) }
{
    if symbols::name_of(files, i) == 0 {
        return;
    }
    enter(files, slots, i);
}

// Enters records 1 to last.
pub fn enter_all(files: &Files, slots: &mut [u32], last: usize)
    requires { Room slots.old last × Names (words files.now) slots.old 1 }
    ensures { Names (words files.now) slots.new (last + 1) }
{
    for i in 1..=last {
        enter_one(files, slots, i);
    }
}
