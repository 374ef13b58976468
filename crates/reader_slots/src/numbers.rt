// The numbering of all records: equal trees share a number, the least record that has the tree.
ghost use Rattle.std.specs.Prelude.{◌≡◌, ◌+◌, ◌*◌, ◌≤◌, length};
ghost use Rattle.reader.specs.Files.{words};
ghost use Rattle.reader_equality.specs.Least.{Numbered};
ghost use Rattle.reader_equality.specs.Tables.{Zeros};

use crate::slots;
use reader::Files;

// Fills the table with the numbers of all its records; past the end of the files a record reads as zeros. The slots are scratch: zeros before, and
// zeros again.
pub fn number_all(files: &Files, table: &mut [usize], slots: &mut [u32])
    requires { (length table.old ≤ 4294967296) × (4096 + 2 * length table.old ≤ length slots.old) × Zeros slots.old }
    ensures { Numbered (words files.now) table.new (length table.new) × Zeros slots.new }
{
    if table.is_empty() {
        return;
    }
    table[0] = 0;
    for i in 1..table.len() {
        let x = files.record_at(i);
        table[i] = slots::place(files, true, table, slots, i, x);
    }
    slots.fill(0);
}
