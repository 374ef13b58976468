// The whole derivation.
ghost use Rattle.std.specs.Prelude.{◌≡◌, ◌+◌, ◌*◌, ◌<◌, ◌≤◌, length};
ghost use Rattle.reader.specs.Files.{words};
ghost use Rattle.reader.specs.Words.{word};
ghost use Rattle.reader.specs.Places.{count_of, root_of};
ghost use Rattle.translation_rules.specs.Output.{start_of, written};
ghost use Rattle.translation_rules.specs.Bytes.{derivation_bytes};
ghost use Rattle.translation_values.specs.Ends.{Ends};
ghost use Rattle.translation_write.specs.Put.{put};
ghost use Rattle.translation_write.specs.Nodes.{Room};
ghost use Rattle.translation_file.specs.Derivation.{Ready, start_bytes, file_bytes};

use reader::{Files, words};
use translation_values::{ends, values};
use translation_write::{blocks, copies, records};

// The start's block from record `base` of the numbering on, record r of the file: ⊥ by rule 75 from the root's concluding node, which is record `end`.
fn put_start(buffer: &mut [u8], r: usize, base: usize, root: usize, end: usize)
    requires { (16 * r + 80 ≤ length buffer.old) × (base < 4294967296) }
    ensures { buffer.new ≡ put buffer.old (16 * r) (start_bytes base root end) }
{
    records::put_record(buffer, r, 1, root, 0, 0);
    records::put_record(buffer, r + 1, 68, 0, 0, 0);
    records::put_record(buffer, r + 2, 1, base + 1, 0, 0);
    records::put_record(buffer, r + 3, 1, end, 0, base + 2);
    records::put_record(buffer, r + 4, 75, base, base + 3, 0);
}

// Header, copies, blocks and the start's block, which starts at record `start`.
fn put_file(files: &Files, n: usize, ends: &[usize], start: usize, buffer: &mut [u8])
    requires { Room (words files.now) files.now.m n buffer.old × (16 * (1 + n) ≤ length files.now.second.now) × Ends (words files.now) files.now.m n ends.now (files.now.m + n + 1) × (root_of files.now.second.now ≤ files.now.m + n) × (start ≡ start_of (words files.now) files.now.m n) }
    ensures { buffer.new ≡ put buffer.old 0 (file_bytes (words files.now) files.now.second.now files.now.m n) }
{
    records::put_record(buffer, 0, 1, start + 4 - files.m, start + 4, files.m);
    copies::put_copies(files, n, buffer);
    blocks::put_blocks(files, n, ends, buffer);
    let root = words::word_of(files.second, 0, 2);
    let end = values::entry_at(ends, root);
    put_start(buffer, start - files.m, start, root, end);
}

// The derivation that an accepted proof of the obligation becomes. Returns its length in bytes; what lies past it in the buffer stays.
pub fn put_derivation(obligation: &[u8], proof: &[u8], buffer: &mut [u8]) -> usize
    requires { Ready obligation.now proof.now buffer.old }
    ensures value { result ≡ 16 * (1 + written (word obligation.now proof.now (count_of obligation.now)) (count_of obligation.now) (count_of proof.now)) }
    ensures buffer_after { buffer.new ≡ put buffer.old 0 (derivation_bytes obligation.now proof.now) }
{
    let m = words::word_of(obligation, 0, 1);
    let files = Files::new(obligation, proof, m);
    let n = words::word_of(proof, 0, 1);
    let mut ends = [0usize; 4096];
    let start = ends::fill_ends(&files, n, &mut ends);
    put_file(&files, n, &ends, start, buffer);
    16 * (start + 5 - m)
}
