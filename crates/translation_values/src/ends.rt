// Where the blocks of the proof's records start and end.
ghost use Rattle.std.specs.Prelude.{◌≡◌, ◌+◌, ◌<◌, length, drop};
ghost use Rattle.reader.specs.Files.{words};
ghost use Rattle.reader.specs.Tests.{if_lt};
ghost use Rattle.translation_rules.specs.Output.{start_of};
ghost use Rattle.translation_values.specs.Ends.{Ends, Sized};

use reader::kinds::Mode;
use reader::{Files, kinds};
use translation_lines::lines;

// How many records the block of record i has.
fn size_at(files: &Files, i: usize) -> usize
    ensures { Sized (words files.now) i result }
{
    let k = files.word_at(i, 0);
    if !kinds::is_rule(Mode::Proof as u8, k) {
        return 0;
    }
    lines::lines_of(k)
}

// Where the next block starts after that of record i, of `size` records from `base` on: the obligation's records, up to m, have none.
fn base_after(m: usize, i: usize, base: usize, size: usize) -> usize
    requires { base + size < 18446744073709551616 }
    ensures { result ≡ if_lt m i (base + size) base }
{
    if m < i { base + size } else { base }
}

// Fills the table with the concluding node of the block of every record, also where it is no rule node, and returns where the start's block starts. Entries past those stay.
pub fn fill_ends(files: &Files, n: usize, ends: &mut [usize]) -> usize
    requires { (files.now.m + n < length ends.old) × (files.now.m + n < 4294967296) }
    ensures { (result ≡ start_of (words files.now) files.now.m n) × Ends (words files.now) files.now.m n ends.new (files.now.m + n + 1) × (drop (files.now.m + n + 1) ends.new ≡ drop (files.now.m + n + 1) ends.old) }
{
    let mut base = files.m + n + 1;
    for i in 0..files.m + n + 1 {
        let size = size_at(files, i);
        ends[i] = base + size - 1;
        base = base_after(files.m, i, base, size);
    }
    base
}
