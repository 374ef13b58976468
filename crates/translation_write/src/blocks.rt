// Blocks: the records that stand for one rule node of the proof.
ghost use Rattle.reader.specs.Files.{words};
ghost use Rattle.std.specs.Prelude.{◌≡◌, ◌+◌, ◌*◌, ◌-◌, ◌<◌, ◌≤◌, length};
ghost use Rattle.translation_rules.specs.Templates.{template};
ghost use Rattle.translation_rules.specs.Output.{base_of};
ghost use Rattle.translation_rules.specs.Bytes.{block_bytes, blocks_bytes};
ghost use Rattle.translation_values.specs.Ends.{Ends};
ghost use Rattle.translation_write.specs.Put.{put};
ghost use Rattle.translation_write.specs.Blocks.{Place, block_line, block_lines};
ghost use Rattle.translation_write.specs.Nodes.{Room};

use crate::records;
use reader::kinds::Mode;
use reader::{Files, kinds};
use translation_lines::lines;
use translation_values::values;
use translation_values::values::Block;

// Line r of the block of a node.
fn put_line(files: &Files, ends: &[usize], block: Block, r: usize, buffer: &mut [u8])
    requires { Place (words files.now) files.now.m block.node block.base buffer.old × (r < length (template (words files.now block.node 0))) }
    ensures { buffer.new ≡ put buffer.old (16 * (block.base - files.now.m + r)) (block_line (words files.now) ends.now block.node block.base r) }
{
    let k = files.word_at(block.node, 0);
    let line = lines::line_at(k, r);
    let first = values::value_of(files, ends, block, line / 65536 % 256);
    let second = values::value_of(files, ends, block, line / 256 % 256);
    let third = values::value_of(files, ends, block, line % 256);
    records::put_record(
        buffer,
        block.base - files.m + r,
        line / 16777216,
        first,
        second,
        third,
    );
}

// The block of a node.
fn put_block(files: &Files, ends: &[usize], block: Block, buffer: &mut [u8])
    requires { Place (words files.now) files.now.m block.node block.base buffer.old }
    ensures { buffer.new ≡ put buffer.old (16 * (block.base - files.now.m)) (block_lines (words files.now) ends.now block.node block.base (length (template (words files.now block.node 0)))) }
{
    let k = files.word_at(block.node, 0);
    let count = lines::lines_of(k);
    for r in 0..count {
        put_line(files, ends, block, r, buffer);
    }
}

// The block of record i, nothing where that is no rule node.
fn put_node(files: &Files, n: usize, ends: &[usize], i: usize, buffer: &mut [u8])
    requires { Room (words files.now) files.now.m n buffer.old × Ends (words files.now) files.now.m n ends.now (files.now.m + n + 1) × (files.now.m < i) × (i ≤ files.now.m + n) }
    ensures { buffer.new ≡ put buffer.old (16 * (base_of (words files.now) files.now.m n i - files.now.m)) (block_bytes (words files.now) files.now.m n i) }
{
    let k = files.word_at(i, 0);
    if !kinds::is_rule(Mode::Proof as u8, k) {
        return;
    }
    let count = lines::lines_of(k);
    let end = values::entry_at(ends, i);
    let base = end + 1 - count;
    put_block(files, ends, Block { node: i, base }, buffer);
}

// The blocks of the proof's records, m + 1 to m + n, after their copies.
pub fn put_blocks(files: &Files, n: usize, ends: &[usize], buffer: &mut [u8])
    requires { Room (words files.now) files.now.m n buffer.old × Ends (words files.now) files.now.m n ends.now (files.now.m + n + 1) }
    ensures { buffer.new ≡ put buffer.old (16 * (n + 1)) (blocks_bytes (words files.now) files.now.m n n) }
{
    for c in 0..n {
        put_node(files, n, ends, files.m + c + 1, buffer);
    }
}
