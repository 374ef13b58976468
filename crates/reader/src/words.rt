// Words of records, through one numbering. Every function is total: past the end of a file a word is 0.
ghost use Rattle.std.specs.Prelude.{◌≡◌, ◌<◌, get_or};
ghost use Rattle.reader.specs.Files.{words};
ghost use Rattle.reader.specs.Words.{le32, word_from, word_of, record_count};

use crate::Files;

// Byte k; 0 past the end.
fn byte_at(s: &[u8], k: usize) -> u8
    ensures { result ≡ get_or s.now k 0 }
{
    if k < s.len() { s[k] } else { 0 }
}

pub(crate) fn join(a: u8, b: u8, c: u8, d: u8) -> usize
    ensures { result ≡ le32 a b c d }
{
    (a as usize) + 256 * (b as usize) + 65536 * (c as usize) + 16777216 * (d as usize)
}

// Word w of a record i that does not stand whole in the file.
fn word_past(s: &[u8], i: usize, w: u8) -> usize
    requires { w < 4 }
    ensures { result ≡ word_of s.now i w }
{
    if s.len() / 16 < i {
        return 0;
    }
    let at = 16 * i + 4 * (w as usize);
    join(
        byte_at(s, at),
        byte_at(s, at + 1),
        byte_at(s, at + 2),
        byte_at(s, at + 3),
    )
}

// Word w of record i of one file.
pub fn word_of(s: &[u8], i: usize, w: u8) -> usize
    ensures { result ≡ word_of s.now i w }
{
    if 4 <= w {
        return 0;
    }
    if s.len() / 16 <= i {
        return word_past(s, i, w);
    }
    let at = 16 * i + 4 * (w as usize);
    join(s[at], s[at + 1], s[at + 2], s[at + 3])
}

// How many whole records a file has, the header counted.
pub fn record_count(s: &[u8]) -> usize
    ensures { result ≡ record_count s.now }
{
    s.len() / 16
}

impl<'a> Files<'a> {
    // Both files, where the obligation has m records.
    pub fn new(obligation: &'a [u8], second: &'a [u8], m: usize) -> Self
        ensures { (result.obligation ≡ obligation.entry) × (result.second ≡ second.entry) × (result.m ≡ m) }
    {
        Files {
            obligation,
            second,
            m,
        }
    }

    // Word w of record i.
    pub fn word_at(&self, i: usize, w: u8) -> usize
        ensures { result ≡ words self.now i w }
    {
        if self.m < i {
            return word_of(self.second, i - self.m, w);
        }
        word_of(self.obligation, i, w)
    }
}
