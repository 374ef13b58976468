// The bytes of a name, read one by one; a record is fetched once for its 8 bytes.
ghost use Rattle.std.specs.Prelude.{◌≡◌, ◌<◌, eqb};
ghost use Rattle.reader.specs.Files.{words};
ghost use Rattle.reader.specs.Tests.{both, if_lt};
ghost use Rattle.reader.specs.Chains.{linked};
ghost use Rattle.reader.specs.Names.{name_bytes};
ghost use Rattle.reader.specs.Fetched.{RecordIs};
ghost use Rattle.reader_characters.specs.Steps.{rest_bytes, Held, nothing, Left, FirstByte};

use crate::Step;
use reader::{Files, Record};

// Nothing was read, and nothing is left.
fn none() -> Step
    ensures { result ≡ nothing }
{
    Step {
        more: false,
        value: 0,
        bytes: 0,
        count: 0,
        after: 0,
    }
}

// The record that a word c of record r refers to, 0 where it is no reference to a smaller one.
fn smaller(c: usize, r: usize) -> usize
    ensures { result ≡ if_lt c r c 0 }
{
    if c < r { c } else { 0 }
}

// Record r; its words have 32 bits.
fn fetched(files: &Files, r: usize) -> Record
    ensures { RecordIs (words files.now) r result × (result.a < 4294967296) × (result.b < 4294967296) }
{
    files.record_at(r)
}

// The step before the first byte of the name whose first record is r.
pub fn start(files: &Files, r: usize) -> Step
    ensures { Left (words files.now) (name_bytes (words files.now) (linked (words files.now) r)) result }
{
    if r == 0 {
        return none();
    }
    let x = fetched(files, r);
    Step {
        more: false,
        value: 0,
        bytes: x.a + 4294967296 * x.b,
        count: 8,
        after: smaller(x.c, r),
    }
}

// Is no byte left behind a step? The zero bytes that end a name are none.
fn is_end(s: Step) -> bool
    ensures { result ≡ both (eqb s.after 0) (eqb s.bytes 0) }
{
    if s.after != 0 {
        return false;
    }
    s.bytes == 0
}

// The byte of a name behind a step.
pub fn next_byte(files: &Files, s: Step) -> Step
    requires { Held s }
    ensures { FirstByte (words files.now) (rest_bytes (words files.now) s) result }
{
    if is_end(s) {
        return none();
    }
    if s.count != 1 {
        return Step {
            more: true,
            value: s.bytes % 256,
            bytes: s.bytes / 256,
            count: s.count - 1,
            after: s.after,
        };
    }
    let follows = start(files, s.after);
    Step {
        more: true,
        value: s.bytes % 256,
        bytes: follows.bytes,
        count: follows.count,
        after: follows.after,
    }
}
