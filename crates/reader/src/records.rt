// The four words of one record at once: one test for the file, one for its end, and 16 bytes.
ghost use Rattle.std.specs.Prelude.{◌≡◌, ◌+◌, ◌*◌, ◌≤◌, length};
ghost use Rattle.reader.specs.Fetched.{RecordIs, word_in};
ghost use Rattle.reader.specs.Files.{words};
ghost use Rattle.reader.specs.Words.{word_from, word_of};

use crate::{Files, Record, words};

// The word that starts at byte `at`.
fn word_from(s: &[u8], at: usize) -> usize
    requires { at + 4 ≤ length s.now }
    ensures { result ≡ word_from s.now at }
{
    words::join(s[at], s[at + 1], s[at + 2], s[at + 3])
}

// Record i of one file, word by word: for one that does not stand whole in it.
fn record_past(s: &[u8], i: usize) -> Record
    ensures { RecordIs (word_of s.now) i result }
{
    Record {
        kind: words::word_of(s, i, 0),
        a: words::word_of(s, i, 1),
        b: words::word_of(s, i, 2),
        c: words::word_of(s, i, 3),
    }
}

// Record i of one file that has it whole.
fn record_whole(s: &[u8], i: usize) -> Record
    requires { 16 * i + 16 ≤ length s.now }
    ensures { RecordIs (word_of s.now) i result }
{
    let at = 16 * i;
    Record {
        kind: word_from(s, at),
        a: word_from(s, at + 4),
        b: word_from(s, at + 8),
        c: word_from(s, at + 12),
    }
}

impl Files<'_> {
    // Record i. `record_past` is large and called at two places: so the compiler leaves it a call, and what reads a whole record is small enough to stand in its
    // callers. The words of what it answers are put together anew: else those of a whole record would go through memory too, where the call writes them.
    pub fn record_at(&self, i: usize) -> Record
        ensures { RecordIs (words self.now) i result }
    {
        if self.m < i {
            if self.second.len() / 16 <= i - self.m {
                let x = record_past(self.second, i - self.m);
                return Record {
                    kind: x.kind,
                    a: x.a,
                    b: x.b,
                    c: x.c,
                };
            }
            return record_whole(self.second, i - self.m);
        }
        if self.obligation.len() / 16 <= i {
            let x = record_past(self.obligation, i);
            return Record {
                kind: x.kind,
                a: x.a,
                b: x.b,
                c: x.c,
            };
        }
        record_whole(self.obligation, i)
    }
}

impl Record {
    // Word w; 0 where w is no word.
    pub fn word_in(self, w: u8) -> usize
        ensures { result ≡ word_in self w }
    {
        match w {
            0 => self.kind,
            1 => self.a,
            2 => self.b,
            3 => self.c,
            _ => 0,
        }
    }
}
