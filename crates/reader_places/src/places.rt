// Places 1 to 12, top to bottom, the obligation through all of its places first.
ghost use Rattle.std.specs.Prelude.{◌≡◌, ◌+◌, ◌^◌, ◌<◌, ◌≤◌, min, length};
ghost use Rattle.reader.specs.Files.{words};
ghost use Rattle.reader.specs.Refusals.{reading_of};
ghost use Rattle.reader.specs.Places.{count_of, obligation_reading, second_reading, reading};
ghost use Rattle.reader_equality.specs.Least.{Numbered};
ghost use Rattle.reader_equality.specs.Tables.{Zeros};
ghost use Rattle.reader_naming.specs.Totals.{Cleared};
ghost use Rattle.reader_bodies.specs.Places.{records_and_roots, Blank, Roomy, zeros};
ghost use Rattle.reader.specs.Words.{record_count};

use reader::{Fault, Files, Refusal, words};
use reader_bodies::bodies;
use reader_headers::headers;
use reader_slots::numbers::number_all;

// The records and the roots of an obligation. The table of numbers is scratch, and may have any length.
fn numbered_obligation(files: &Files, numbers: &mut [usize]) -> Result<(), Refusal>
    requires { (files.now.m < 1024) × (length numbers.old ≤ 1024) }
    ensures { reading_of result ≡ records_and_roots (words files.now) files.now.m }
{
    let mut scratch = [0u32; 6144];
    number_all(files, numbers, &mut scratch);
    let mut seen = [0usize; 1024];
    let mut slots = [0u32; 6144];
    let mut table = [0u16; 1024];
    bodies::obligation_body(files, numbers, &mut seen, &mut slots, &mut table)
}

// Places 1 to 11 of an obligation.
pub fn obligation_reading(obligation: &[u8]) -> Result<(), Refusal>
    ensures { reading_of result ≡ obligation_reading obligation.now }
{
    if !headers::length_fits(0, obligation) {
        return Err(bodies::refused(Fault::Length, 1));
    }
    if !headers::header_fits(obligation) {
        return Err(bodies::refused(Fault::Header, 1));
    }
    let m = words::word_of(obligation, 0, 1);
    let files = Files::new(obligation, &obligation[..0], m);
    let size = m + 1;
    let mut numbers = [0usize; 1024];
    numbered_obligation(&files, &mut numbers[..size])
}

// Places 1 to 12 of a second file of kind `mode`, beside an obligation. The tables are scratch.
fn second_reading(
    files: &Files,
    mode: u8,
    numbers: &[usize],
    seen: &mut [usize],
    slots: &mut [u32],
    table: &mut [u16],
    named: &mut [u8],
    passed: &mut [u8],
) -> Result<(), Refusal>
    requires { (0 < mode) × (files.now.m ≡ count_of files.now.obligation.now) × (files.now.m < 1024) × Roomy mode files.now.second.now slots.old table.old named.old passed.old × Zeros slots.old × Blank table.old × Cleared named.old × Cleared passed.old × Numbered (words files.now) numbers.now (length numbers.now) × Zeros seen.old }
    ensures { reading_of result ≡ second_reading mode files.now.obligation.now files.now.second.now }
{
    if !headers::length_fits(mode, files.second) {
        return Err(bodies::refused(Fault::Length, 2));
    }
    if !headers::counts_fit(files.obligation, files.second) {
        return Err(bodies::refused(Fault::Header, 2));
    }
    bodies::second_body(files, mode, numbers, seen, slots, table, named, passed)
}

// The same, with tables of these sizes: SLOTS for names, and SIZE for the records. Small tables are cleared sooner, and a call that needs no more takes no more of the
// stack.
#[inline(never)]
fn reading_within<const SLOTS: usize, const SIZE: usize>(
    files: &Files,
    mode: u8,
    numbers: &[usize],
    seen: &mut [usize],
) -> Result<(), Refusal>
    requires { (SLOTS < 2 ^ 32) × (SIZE < 2 ^ 32) × (0 < mode) × (files.now.m ≡ count_of files.now.obligation.now) × (files.now.m < 1024) × Roomy mode files.now.second.now (zeros SLOTS) (zeros SIZE) (zeros SIZE) (zeros SIZE) × Numbered (words files.now) numbers.now (length numbers.now) × Zeros seen.old }
    ensures { reading_of result ≡ second_reading mode files.now.obligation.now files.now.second.now }
{
    let mut slots = [0u32; SLOTS];
    let mut table = [0u16; SIZE];
    let mut named = [0u8; SIZE];
    let mut passed = [0u8; SIZE];
    second_reading(
        files,
        mode,
        numbers,
        seen,
        &mut slots,
        &mut table,
        &mut named,
        &mut passed,
    )
}

// How many entries the table of numbers has for an obligation and a proof: one for each record and for record 0, and no more than there is room
// for.
pub fn table_size(files: &Files) -> usize
    requires { files.now.m < 1024 }
    ensures { result ≡ min (files.now.m + record_count files.now.second.now) 4096 }
{
    let all = files.m + words::record_count(files.second);
    if all < 4096 { all } else { 4096 }
}

// Fills the table of numbers. The slots are needed here alone.
pub fn number_records(files: &Files, numbers: &mut [usize])
    requires { length numbers.old ≤ 4096 }
    ensures { Numbered (words files.now) numbers.new (length numbers.new) }
{
    let mut slots = [0u32; 12288];
    number_all(files, numbers, &mut slots);
}

// Places 1 to 12 of a proof, beside an obligation that passes its own; by a table of numbers of any length.
pub fn proof_reading(files: &Files, numbers: &[usize]) -> Result<(), Refusal>
    requires { (files.now.m ≡ count_of files.now.obligation.now) × (files.now.m < 1024) × Numbered (words files.now) numbers.now (length numbers.now) }
    ensures { reading_of result ≡ second_reading 1 files.now.obligation.now files.now.second.now }
{
    let mut seen = [0usize; 4096];
    reading_within::<12288, 4096>(files, 1, numbers, &mut seen)
}

// The same, with the numbers found here.
fn numbered_reading(files: &Files, numbers: &mut [usize]) -> Result<(), Refusal>
    requires { (files.now.m ≡ count_of files.now.obligation.now) × (files.now.m < 1024) × (length numbers.old ≤ 4096) }
    ensures { reading_of result ≡ second_reading 1 files.now.obligation.now files.now.second.now }
{
    number_records(files, numbers);
    proof_reading(files, numbers)
}

// Places 1 to 12 of an obligation and a proof.
pub fn read_proof(obligation: &[u8], proof: &[u8]) -> Result<(), Refusal>
    ensures { reading_of result ≡ reading 1 obligation.now proof.now }
{
    obligation_reading(obligation)?;
    let m = words::word_of(obligation, 0, 1);
    let files = Files::new(obligation, proof, m);
    let size = table_size(&files);
    let mut numbers = [0usize; 4096];
    numbered_reading(&files, &mut numbers[..size])
}

// Places 1 to 12 of an obligation and a derivation, whose records are not typed: no number is wanted.
pub fn read_derivation(obligation: &[u8], derivation: &[u8]) -> Result<(), Refusal>
    ensures { reading_of result ≡ reading 2 obligation.now derivation.now }
{
    obligation_reading(obligation)?;
    let m = words::word_of(obligation, 0, 1);
    let files = Files::new(obligation, derivation, m);
    let numbers = [0usize; 1];
    let mut seen = [0usize; 1];
    if words::record_count(derivation) <= 3073 {
        return reading_within::<12288, 4096>(&files, 2, &numbers, &mut seen);
    }
    reading_within::<406144, 201024>(&files, 2, &numbers, &mut seen)
}
