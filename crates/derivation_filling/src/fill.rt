// Fills the table of keys: records rising, each key from those of smaller records.
ghost use Rattle.std.specs.Prelude.{◌+◌, ◌*◌, ◌<◌, ◌≤◌, length};
ghost use Rattle.reader.specs.Files.{words};
ghost use Rattle.reader_equality.specs.Tables.{Zeros};
ghost use Rattle.derivation_trees.specs.Table.{Table};
ghost use Rattle.derivation_filling.specs.Filling.{Filling, Made};

use reader::Files;
use reader::kinds::Kind;
use reader_equality::keys::part_of;
use reader_slots::slots;

// The key of record i. A record that is the first with its tree is put into the slots, unless it is ⊥, ⊤, a negation or a "for all types".
fn record_key(files: &Files, keys: &[usize], slots: &mut [u32], i: usize) -> usize
    requires { (0 < i) × (i ≤ length keys.now) × (i < 262143) × (4096 + 2 * i ≤ length slots.old) × Filling (words files.now) keys.now slots.old i }
    ensures { Made (words files.now) keys.now slots.new i result }
{
    let x = files.record_at(i);
    if x.kind == Kind::False as usize {
        return 1;
    }
    if x.kind == Kind::True as usize {
        return 262145;
    }
    if x.kind == Kind::Not as usize {
        let part = part_of(true, i, x, 1);
        return keys[part] + 262144;
    }
    if x.kind == Kind::ForAllTypes as usize {
        let part = part_of(true, i, x, 2);
        return keys[part];
    }
    slots::place(files, false, keys, slots, i, x) + 1
}

// Fills the table with the keys of all its records; past the end of the files a record reads as zeros. The slots are scratch: zeros before, and
// zeros again.
pub fn key_all(files: &Files, keys: &mut [usize], slots: &mut [u32])
    requires { (length keys.old ≤ 262143) × (4096 + 2 * length keys.old ≤ length slots.old) × Zeros slots.old }
    ensures { Table (words files.now) keys.new × Zeros slots.new }
{
    if keys.len() == 0 {
        return;
    }
    keys[0] = 0;
    for i in 1..keys.len() {
        keys[i] = record_key(files, keys, slots, i);
    }
    slots.fill(0);
}
