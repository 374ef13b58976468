// Copies of the proof's own records, each at its old number, so that references to terms and formulas stay as they are.
ghost use Rattle.reader.specs.Files.{words};
ghost use Rattle.std.specs.Prelude.{◌≡◌, ◌+◌, ◌*◌, ◌<◌, ◌≤◌, length};
ghost use Rattle.translation_rules.specs.Bytes.{copy_bytes, copies_bytes};
ghost use Rattle.translation_write.specs.Put.{put};

use crate::records;
use reader::kinds::{Kind, Mode};
use reader::{Files, kinds};

// Record r of the proof, or ⊥ where that is a rule node.
fn put_copy(files: &Files, r: usize, buffer: &mut [u8])
    requires { (files.now.m + r < 18446744073709551616) × (16 * r + 16 ≤ length files.now.second.now) × (16 * r + 16 ≤ length buffer.old) }
    ensures { buffer.new ≡ put buffer.old (16 * r) (copy_bytes (words files.now) files.now.second.now files.now.m r) }
{
    let k = files.word_at(files.m + r, 0);
    if kinds::is_rule(Mode::Proof as u8, k) {
        records::put_record(buffer, r, Kind::False as usize, 0, 0, 0);
        return;
    }
    records::copy_record(files.second, buffer, r);
}

// The proof's n records, after the header.
pub fn put_copies(files: &Files, n: usize, buffer: &mut [u8])
    requires { (files.now.m + n < 4294967296) × (16 * (1 + n) ≤ length files.now.second.now) × (16 * (1 + n) ≤ length buffer.old) }
    ensures { buffer.new ≡ put buffer.old 16 (copies_bytes (words files.now) files.now.second.now files.now.m n) }
{
    for c in 0..n {
        put_copy(files, c + 1, buffer);
    }
}
