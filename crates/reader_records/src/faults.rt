// The refusal of a record, and the first record with one.
ghost use Rattle.std.specs.Prelude.{◌≡◌, true, ◌+◌, ◌-◌, ◌<◌, length};
ghost use Rattle.reader.specs.Files.{words};
ghost use Rattle.reader.specs.Trees.{tree};
ghost use Rattle.reader.specs.Weight.{weight};
ghost use Rattle.reader.specs.Names.{name_of};
ghost use Rattle.reader.specs.Kinds.{layout, class_at};
ghost use Rattle.reader.specs.KindLaws.{unpacked};
ghost use Rattle.reader.specs.Fetched.{RecordIs};
ghost use Rattle.reader_equality.specs.Least.{Numbered};
ghost use Rattle.reader.specs.Answers.{first_fault};
ghost use Rattle.reader.specs.Refusals.{fault_of, reading_of};
ghost use Rattle.reader.specs.Records.{name_length_fits, chains_fit, typing_fits, words_fault, content_fault, record_fault};
ghost use Rattle.reader_names.specs.Taken.{Room, Names};
ghost use Rattle.reader_equality.specs.Tables.{Zeros};
ghost use Rattle.reader_weights.specs.Weights.{capped, Filled, file_of};
ghost use Rattle.reader_records.specs.Tables.{end_of, names_to, looked_up, Weighed};

use reader::{Fault, Files, Record, Refusal, kinds};
use reader_names::symbols;
use reader_references::{ranges, references};
use reader_weights::weights;

// Have the chains of record i, whose words are x and which names `name`, their lengths?
fn chains_fit(files: &Files, i: usize, x: Record, name: usize) -> bool
    requires { RecordIs (words files.now) i x × (name ≡ name_of (words files.now) i) }
    ensures { result ≡ chains_fit (words files.now) i }
{
    if !reader_names::name_length_fits(files, i, name) {
        return false;
    }
    references::item_chains_fit(files, i, x)
}

// Is record i typed as its kind k asks, where the file of kind `mode` is typed? The table is scratch, zeros before and zeros again.
fn typing_fits(
    files: &Files,
    mode: u8,
    numbers: &[usize],
    seen: &mut [usize],
    i: usize,
    k: usize,
) -> bool
    requires { (k ≡ words files.now i 0) × Numbered (words files.now) numbers.now (length numbers.now) × Zeros seen.old }
    ensures { (result ≡ typing_fits mode (words files.now) i) × Zeros seen.new }
{
    if mode == 2 {
        return true;
    }
    reader_typing::records::is_typed(files, numbers, seen, i, k)
}

// Refusals 3 to 6 of record i. Its words are x, the row of its kind is `row`, and it names `name`.
fn words_fault(
    files: &Files,
    mode: u8,
    i: usize,
    x: Record,
    row: u32,
    name: usize,
) -> Result<(), Fault>
    requires { RecordIs (words files.now) i x × (unpacked row ≡ layout x.kind) × (name ≡ name_of (words files.now) i) }
    ensures { fault_of result ≡ words_fault mode (words files.now) i }
{
    if !ranges::kind_fits(files, mode, i, x.kind) {
        return Err(Fault::Kind);
    }
    if !ranges::ranges_fit(files, i, x, row) {
        return Err(Fault::Number);
    }
    if !references::references_fit(files, i, x, row) {
        return Err(Fault::Reference);
    }
    if !chains_fit(files, i, x, name) {
        return Err(Fault::Chain);
    }
    Ok(())
}

// Refusals 7 to 10 of record i of kind k and class c, which names `name` and weighs w. The slots have the names below i, and then that of i
// where it was looked up; `seen` is scratch, zeros before and zeros again.
fn content_fault(
    files: &Files,
    mode: u8,
    numbers: &[usize],
    seen: &mut [usize],
    slots: &mut [u32],
    i: usize,
    k: usize,
    c: u8,
    name: usize,
    w: usize,
) -> Result<(), Fault>
    requires { (k ≡ words files.now i 0) × (c ≡ class_at (words files.now) i) × (name ≡ name_of (words files.now) i) × (w ≡ capped (weight (tree (words files.now) i))) × Numbered (words files.now) numbers.now (length numbers.now) × (0 < i) × Room slots.old i × Names (words files.now) slots.old i × (name_length_fits (words files.now) i ≡ true) × Zeros seen.old }
    ensures { (fault_of result ≡ content_fault mode (words files.now) i) × Zeros seen.new × Names (words files.now) slots.new (looked_up (fault_of result) i) }
{
    if !weights::weight_fits(files, mode, i, c, w) {
        return Err(Fault::Weight);
    }
    if !reader_names::name_spelled(files, i, name) {
        return Err(Fault::Spelling);
    }
    if !reader_names::name_is_free(files, slots, i, name) {
        return Err(Fault::Name);
    }
    if !typing_fits(files, mode, numbers, seen, i, k) {
        return Err(Fault::Typing);
    }
    Ok(())
}

// The refusal of record i of a file of kind `mode`: its words are x, the row of its kind is `row`, and it weighs w. The slots and `seen` as in
// `content_fault`.
fn record_fault(
    files: &Files,
    mode: u8,
    numbers: &[usize],
    seen: &mut [usize],
    slots: &mut [u32],
    i: usize,
    x: Record,
    row: u32,
    w: usize,
) -> Result<(), Fault>
    requires { RecordIs (words files.now) i x × (unpacked row ≡ layout x.kind) × (w ≡ capped (weight (tree (words files.now) i))) × Numbered (words files.now) numbers.now (length numbers.now) × (0 < i) × Room slots.old i × Names (words files.now) slots.old i × Zeros seen.old }
    ensures { (fault_of result ≡ record_fault mode (words files.now) i) × Zeros seen.new × Names (words files.now) slots.new (looked_up (fault_of result) i) }
{
    let name = symbols::name_in(files, i, x);
    words_fault(files, mode, i, x, row, name)?;
    let c = kinds::class_in(row);
    content_fault(files, mode, numbers, seen, slots, i, x.kind, c, name, w)
}

// Fills the table with the weights of records 1 to last.
pub fn weigh_all(files: &Files, table: &mut [u16], last: usize)
    requires { (last < length table.old) × Filled (words files.now) table.old 1 }
    ensures { Weighed (words files.now) table.old table.new (last + 1) }
{
    for i in 1..last + 1 {
        let x = files.record_at(i);
        let row = kinds::row_of(x.kind);
        let w = weights::weigh(files, table, i, x, row);
        table[i] = w as u16;
    }
}

// The first record from `first` to `last` with a refusal, in file 1 for an obligation (mode 0), else 2. The table has the weights
// below `first`, the slots the names, and then those of the records that were read; `seen` is scratch, zeros before and zeros again.
pub fn first_fault(
    files: &Files,
    mode: u8,
    numbers: &[usize],
    seen: &mut [usize],
    slots: &mut [u32],
    table: &mut [u16],
    first: usize,
    last: usize,
) -> Result<(), Refusal>
    requires { (0 < first) × (last < length table.old) × Filled (words files.now) table.old first × Numbered (words files.now) numbers.now (length numbers.now) × Room slots.old last × Names (words files.now) slots.old first × Zeros seen.old }
    ensures { (reading_of result ≡ first_fault (record_fault mode (words files.now)) (file_of mode) (last + 1 - first) first) × Zeros seen.new × Names (words files.now) slots.new (names_to (reading_of result) first last) × Weighed (words files.now) table.old table.new (end_of (reading_of result) first last) }
{
    let file = file_of(mode);
    for i in first..last + 1 {
        let x = files.record_at(i);
        let row = kinds::row_of(x.kind);
        let w = weights::weigh(files, table, i, x, row);
        let checked = record_fault(files, mode, numbers, seen, slots, i, x, row, w);
        if let Err(fault) = checked {
            return Err(Refusal {
                fault,
                file,
                at: i,
                nodes: 0,
            });
        }
        table[i] = w as u16;
    }
    Ok(())
}

// The number of a file of kind `mode` in an answer.
fn file_of(mode: u8) -> usize
    ensures { result ≡ file_of mode }
{
    if mode == 0 { 1 } else { 2 }
}
