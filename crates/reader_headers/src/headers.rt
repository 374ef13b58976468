// Refusals 1 and 2: length and header of a file.
ghost use Rattle.std.specs.Prelude.{◌≡◌};
ghost use Rattle.reader.specs.Places.{most_records, length_fits, header_fits, counts_fit};

use reader::kinds::Mode;
use reader::words;

fn most_records(mode: u8) -> usize
    ensures { result ≡ most_records mode }
{
    if mode == Mode::Proof as u8 {
        return 3073;
    }
    if mode == Mode::Derivation as u8 {
        200001
    } else {
        1024
    }
}

// Has a file of kind `mode` a length that it may have?
pub fn length_fits(mode: u8, s: &[u8]) -> bool
    ensures { result ≡ length_fits mode s.now }
{
    if s.len() < 16 {
        return false;
    }
    if s.len() % 16 != 0 {
        return false;
    }
    words::record_count(s) <= most_records(mode)
}

// Does the header say 1 and the count of the records after it?
pub fn header_fits(s: &[u8]) -> bool
    ensures { result ≡ header_fits s.now }
{
    if words::word_of(s, 0, 0) != 1 {
        return false;
    }
    let count = words::record_count(s);
    if count == 0 {
        return false;
    }
    words::word_of(s, 0, 1) == count - 1
}

// Does the second file's header say so, and the obligation's count?
pub fn counts_fit(obligation: &[u8], s: &[u8]) -> bool
    ensures { result ≡ counts_fit obligation.now s.now }
{
    if !header_fits(s) {
        return false;
    }
    words::word_of(s, 0, 3) == words::word_of(obligation, 0, 1)
}
