// The places of a file behind its header: the records, the roots, the naming.
ghost use Rattle.std.specs.Prelude.{◌≡◌, ◌+◌, ◌-◌, ◌<◌, ◌≤◌, length};
ghost use Rattle.reader.specs.Files.{words};
ghost use Rattle.reader.specs.Answers.{first_fault};
ghost use Rattle.reader.specs.Refusals.{reading_of};
ghost use Rattle.reader.specs.Records.{record_fault};
ghost use Rattle.reader_names.specs.Taken.{Room, Names};
ghost use Rattle.reader.specs.Places.{count_of, root_of};
ghost use Rattle.reader_equality.specs.Least.{Numbered};
ghost use Rattle.reader_equality.specs.Tables.{Zeros};
ghost use Rattle.reader_weights.specs.Weights.{file_of};
ghost use Rattle.reader_records.specs.Tables.{end_of, names_to, Weighed};
ghost use Rattle.reader_naming.specs.Totals.{Cleared};
ghost use Rattle.reader_bodies.specs.Places.{records_and_roots, root_and_naming, second_body, Blank};

use reader::{Fault, Files, Refusal, kinds, words};
use reader_headers::roots;
use reader_records::faults;

// A refusal at record 0.
pub fn refused(fault: Fault, file: usize) -> Refusal
    ensures { result ≡ record { fault = fault; file = file; at = 0; nodes = 0 } }
{
    Refusal {
        fault,
        file,
        at: 0,
        nodes: 0,
    }
}

// The records and the roots of an obligation. The slots have then the names of the records that were read, the table their
// weights; `seen` is scratch, zeros before and zeros again.
pub fn obligation_body(
    files: &Files,
    numbers: &[usize],
    seen: &mut [usize],
    slots: &mut [u32],
    table: &mut [u16],
) -> Result<(), Refusal>
    requires { (files.now.m < length table.old) × Room slots.old files.now.m × Blank table.old × Zeros slots.old × Numbered (words files.now) numbers.now (length numbers.now) × Zeros seen.old }
    ensures { (reading_of result ≡ records_and_roots (words files.now) files.now.m) × Zeros seen.new × Names (words files.now) slots.new (names_to (reading_of result) 1 files.now.m) × Weighed (words files.now) table.old table.new (end_of (reading_of result) 1 files.now.m) }
{
    faults::first_fault(files, 0, numbers, seen, slots, table, 1, files.m)?;
    if !roots::roots_fit(files) {
        return Err(refused(Fault::Root, 1));
    }
    Ok(())
}

// The root of a second file, and the naming of its rule nodes. The tables are scratch: zeros before, and zeros again.
fn root_and_naming(
    files: &Files,
    mode: u8,
    named: &mut [u8],
    passed: &mut [u8],
    last: usize,
) -> Result<(), Refusal>
    requires { (files.now.m ≤ last) × (last < length named.old) × (last < length passed.old) × Cleared named.old × Cleared passed.old }
    ensures { (reading_of result ≡ root_and_naming mode (words files.now) (root_of files.now.second.now) files.now.m last) × Cleared named.new × Cleared passed.new }
{
    let root = words::word_of(files.second, 0, 2);
    if !kinds::is_rule(mode, files.word_at(root, 0)) {
        return Err(refused(Fault::Root, 2));
    }
    let size = last + 1;
    reader_naming::first_unnamed(files, mode, &mut named[0..size], &mut passed[0..size], last)
}

// The first refusal of the records of a second file of kind `mode`, up to `last`. The slots have then the names of the records that were read, the table their
// weights; `seen` is scratch, zeros before and zeros again.
fn second_records(
    files: &Files,
    mode: u8,
    numbers: &[usize],
    seen: &mut [usize],
    slots: &mut [u32],
    table: &mut [u16],
    last: usize,
) -> Result<(), Refusal>
    requires { (files.now.m ≤ last) × (last < length table.old) × Room slots.old last × Zeros slots.old × Blank table.old × Numbered (words files.now) numbers.now (length numbers.now) × Zeros seen.old }
    ensures { (reading_of result ≡ first_fault (record_fault mode (words files.now)) (file_of mode) (last + 1 - (files.now.m + 1)) (files.now.m + 1)) × Zeros seen.new × Names (words files.now) slots.new (names_to (reading_of result) (files.now.m + 1) last) × Weighed (words files.now) table.old table.new (end_of (reading_of result) (files.now.m + 1) last) }
{
    reader_names::slots::enter_all(files, slots, files.m);
    faults::weigh_all(files, table, files.m);
    faults::first_fault(files, mode, numbers, seen, slots, table, files.m + 1, last)
}

// The records of a second file of kind `mode`, its root and its naming. The slots have then the names of the records that were read, the table their
// weights; the other tables are scratch, zeros before and zeros again.
pub fn second_body(
    files: &Files,
    mode: u8,
    numbers: &[usize],
    seen: &mut [usize],
    slots: &mut [u32],
    table: &mut [u16],
    named: &mut [u8],
    passed: &mut [u8],
) -> Result<(), Refusal>
    requires { (0 < mode) × Room slots.old (files.now.m + count_of files.now.second.now) × (files.now.m + count_of files.now.second.now < length table.old) × (files.now.m + count_of files.now.second.now < length named.old) × (files.now.m + count_of files.now.second.now < length passed.old) × Zeros slots.old × Blank table.old × Cleared named.old × Cleared passed.old × Numbered (words files.now) numbers.now (length numbers.now) × Zeros seen.old }
    ensures { (reading_of result ≡ second_body mode (words files.now) files.now.m (count_of files.now.second.now) (root_of files.now.second.now)) × Zeros seen.new × Names (words files.now) slots.new (names_to (reading_of result) (files.now.m + 1) (files.now.m + count_of files.now.second.now)) × Weighed (words files.now) table.old table.new (end_of (reading_of result) (files.now.m + 1) (files.now.m + count_of files.now.second.now)) × Cleared named.new × Cleared passed.new }
{
    let last = files.m + words::word_of(files.second, 0, 1);
    second_records(files, mode, numbers, seen, slots, table, last)?;
    root_and_naming(files, mode, named, passed, last)
}
