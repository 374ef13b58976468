// What comes before the walk and needs large tables: places 1 to 12, and the table of keys.
ghost use Rattle.reader.specs.Files.{words};
ghost use Rattle.reader.specs.Refusals.{reading_of};
ghost use Rattle.std.specs.Prelude.{Bool, ◌+◌, ◌*◌, ◌≤◌, length};
ghost use Rattle.derivation_trees.specs.Table.{Table};
ghost use Rattle.derivation_prepare.specs.Prepared.{Prepared};

use derivation_filling::fill;
use reader::{Files, Refusal};
use reader_places::places;

// Fills the table of keys by way of SLOTS slots, which are needed here alone: a call of its own, so that they do not stand beside the reading's tables.
#[inline(never)]
fn key_by<const SLOTS: usize>(files: &Files, keys: &mut [usize])
    requires { (4096 + 2 * length keys.old ≤ SLOTS) × (SLOTS ≤ 406144) }
    ensures { Table (words files.now) keys.new }
{
    let mut slots = [0u32; SLOTS];
    fill::key_all(files, keys, &mut slots);
}

// Fills the table of keys. Few slots are cleared sooner; the many are as many as two files may need.
fn key_records(files: &Files, keys: &mut [usize])
    requires { length keys.old ≤ 201024 }
    ensures { Table (words files.now) keys.new }
{
    if keys.len() <= 4096 {
        key_by::<12288>(files, keys);
    } else {
        key_by::<406144>(files, keys);
    }
}

// What comes before the walk and needs large tables: places 1 to 12, or the table of keys. One function for both, called at two places: the compiler
// puts one that is called at one place into its caller, and these tables, 2.4 MB, would then stand beside the walk's stack.
#[inline(never)]
pub fn prepare(files: &Files, keys: &mut [usize], reading: bool) -> Result<(), Refusal>
    requires { length keys.old ≤ 201024 }
    ensures { Prepared files.now.obligation.now files.now.second.now files.now.m reading (reading_of result) keys.old keys.new }
{
    if reading {
        return places::read_derivation(files.obligation, files.second);
    }
    key_records(files, keys);
    Ok(())
}
