// The characters of a name, read one by one.
ghost use Rattle.std.specs.Prelude.{◌≡◌, ◌∷◌, true, get_or};
ghost use Rattle.reader.specs.Files.{words};
ghost use Rattle.reader.specs.Chains.{linked};
ghost use Rattle.reader.specs.Names.{name_bytes, is_letter, is_digit_or_underscore, single, accented, characters, starts_well};
ghost use Rattle.reader_characters.specs.Steps.{rest_bytes, Held, step, FirstCharacter, is_spelled};

use crate::{Step, accents, bytes};
use reader::Files;
use reader::tests::is_between;

fn is_letter(b: usize) -> bool
    ensures { result ≡ is_letter b }
{
    if is_between(65, 90, b) {
        return true;
    }
    is_between(97, 122, b)
}

fn is_digit_or_underscore(b: usize) -> bool
    ensures { result ≡ is_digit_or_underscore b }
{
    if is_between(48, 57, b) {
        return true;
    }
    b == 95
}

// The character of one byte, 0 for none.
fn single_of(b: usize) -> usize
    ensures { result ≡ single b }
{
    if is_letter(b) {
        return b;
    }
    if is_digit_or_underscore(b) {
        return b;
    }
    0
}

// The character of the bytes C3 and b, 0 for none.
fn accented_of(b: usize) -> usize
    ensures { result ≡ accented b }
{
    if !is_between(128, 191, b) {
        return 0;
    }
    if b == 151 {
        return 0;
    }
    if b == 183 {
        return 0;
    }
    b + 64
}

// A character, and behind it what is left behind s.
fn spelled_before(value: usize, s: Step) -> Step
    ensures { result ≡ step true value s.bytes s.count s.after }
{
    Step {
        more: true,
        value,
        bytes: s.bytes,
        count: s.count,
        after: s.after,
    }
}

// The character of C3, which s has read, and the byte behind it.
fn accented_character(files: &Files, s: Step) -> Step
    requires { Held s }
    ensures { FirstCharacter (words files.now) (characters (195 ∷ rest_bytes (words files.now) s)) result }
{
    let last = bytes::next_byte(files, s);
    if !last.more {
        return spelled_before(0, s);
    }
    spelled_before(accented_of(last.value), last)
}

// The character of the byte that s has read, not C3, and the mark behind it; of the byte alone, where the mark has no second byte.
fn marked_character(files: &Files, s: Step) -> Step
    requires { Held s × (s.value ≡ 195 → ⊥) × (get_or (rest_bytes (words files.now) s) 0 0 ≡ 204) }
    ensures { FirstCharacter (words files.now) (characters (s.value ∷ rest_bytes (words files.now) s)) result }
{
    let mark = bytes::next_byte(files, s);
    let last = bytes::next_byte(files, mark);
    if !last.more {
        return spelled_before(single_of(s.value), s);
    }
    spelled_before(accents::composed_of(s.value, last.value), last)
}

// The character of a name behind a step.
pub fn next_character(files: &Files, s: Step) -> Step
    requires { Held s }
    ensures { FirstCharacter (words files.now) (characters (rest_bytes (words files.now) s)) result }
{
    let first = bytes::next_byte(files, s);
    if !first.more {
        return first;
    }
    if first.value == 195 {
        return accented_character(files, first);
    }
    if first.bytes % 256 == 204 {
        return marked_character(files, first);
    }
    spelled_before(single_of(first.value), first)
}

// Do the bytes of the name whose first record is `first` all spell characters?
pub fn is_spelled(files: &Files, first: usize) -> bool
    ensures { result ≡ is_spelled (characters (name_bytes (words files.now) (linked (words files.now) first))) }
{
    let before = bytes::start(files, first);
    let mut s = next_character(files, before);
    while s.more {
        if s.value == 0 {
            return false;
        }
        s = next_character(files, s);
    }
    true
}

// Is its first character no digit and no underscore?
pub fn starts_well(files: &Files, first: usize) -> bool
    ensures { result ≡ starts_well (characters (name_bytes (words files.now) (linked (words files.now) first))) }
{
    let before = bytes::start(files, first);
    let s = next_character(files, before);
    if !s.more {
        return false;
    }
    !is_digit_or_underscore(s.value)
}
