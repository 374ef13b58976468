// Names of symbols: refusals 8 and 9, and the name's part of refusal 6.
#![tactic(auto)]

pub mod keys;
pub mod plain;
pub mod slots;
pub mod symbols;

ghost use Rattle.std.specs.Prelude.{◌≡◌, true, ◌+◌, ◌<◌};
ghost use Rattle.reader.specs.Files.{words};
ghost use Rattle.reader.specs.Names.{name_of, has_bytes};
ghost use Rattle.reader.specs.Records.{name_length_fits, name_spelled, name_is_free};
ghost use Rattle.reader_names.specs.Symbols.{all_have_bytes};
ghost use Rattle.reader_names.specs.Taken.{Room, Names};

use reader::{Files, chains};
use reader_characters::characters;

// Has symbol i's name, whose first record is `name`, at most 4 records? True for a record that names none.
pub fn name_length_fits(files: &Files, i: usize, name: usize) -> bool
    requires { name ≡ name_of (words files.now) i }
    ensures { result ≡ name_length_fits (words files.now) i }
{
    chains::at_most(files, name, 4)
}

// Is name record i not empty?
fn has_bytes(files: &Files, i: usize) -> bool
    ensures { result ≡ has_bytes (words files.now) i }
{
    if files.word_at(i, 1) != 0 {
        return true;
    }
    files.word_at(i, 2) != 0
}

// Is no record of the name whose first is `first` empty?
fn all_have_bytes(files: &Files, first: usize) -> bool
    ensures { result ≡ all_have_bytes (words files.now) first }
{
    let mut c = first;
    while c != 0 {
        if !has_bytes(files, c) {
            return false;
        }
        c = files.lower_at(c, 3);
    }
    true
}

// Are symbol i's name records and their characters as they must be, the first of them being `name`? True for a record that names none.
pub fn name_spelled(files: &Files, i: usize, name: usize) -> bool
    requires { name ≡ name_of (words files.now) i }
    ensures { result ≡ name_spelled (words files.now) i }
{
    if name == 0 {
        return true;
    }
    if !all_have_bytes(files, name) {
        return false;
    }
    if !characters::is_spelled(files, name) {
        return false;
    }
    characters::starts_well(files, name)
}

// Has no symbol before i the name of symbol i, whose first record is `name`, in its name space? True for a record that names none. The slots have the names
// below i, and then that of i.
pub fn name_is_free(files: &Files, slots: &mut [u32], i: usize, name: usize) -> bool
    requires { (0 < i) × Room slots.old i × Names (words files.now) slots.old i × (name ≡ name_of (words files.now) i) × (name_length_fits (words files.now) i ≡ true) × (name_spelled (words files.now) i ≡ true) }
    ensures { (result ≡ name_is_free (words files.now) i) × Names (words files.now) slots.new (i + 1) }
{
    if name == 0 {
        return true;
    }
    slots::enter(files, slots, i) == i
}
