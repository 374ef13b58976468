// What the cells of a template stand for at a node.
ghost use Rattle.std.specs.Prelude.{◌≡◌, List, ℕ, ◌+◌, ◌<◌, ◌≤◌, get_or};
ghost use Rattle.reader.specs.Files.{words};
ghost use Rattle.reader.specs.Chains.{parts, premises};
ghost use Rattle.translation_rules.specs.Output.{type_record};
ghost use Rattle.translation_values.specs.Values.{value_in};

use reader::Files;
use reader_chains::chains;

// The block of a node, by its first record's number.
#[derive(Clone, Copy)]
pub struct Block {
    pub node: usize,
    pub base: usize,
}

// The record of part j of a node, 0 where it has none.
fn part_at(files: &Files, node: usize, j: usize) -> usize
    ensures { result ≡ get_or (parts (words files.now) node) j 0 }
{
    let chain = files.lower_at(node, 1);
    chains::item_at(files, chain, j)
}

// The node of premise j, 0 where there is none.
fn premise_at(files: &Files, node: usize, j: usize) -> usize
    ensures { result ≡ get_or (premises (words files.now) node) j 0 }
{
    let chain = files.lower_at(node, 2);
    chains::item_at(files, chain, j)
}

// Entry x of a table, 0 past its end.
pub fn entry_at(table: &[usize], x: usize) -> usize
    ensures { result ≡ get_or table.now x 0 }
{
    if x < table.len() { table[x] } else { 0 }
}

// The record of the type of the term at record x. No plainer with `Kind`: as in `reader_types`.
fn type_at(files: &Files, x: usize) -> usize
    ensures { result ≡ type_record (words files.now) x }
{
    let record = files.record_at(x);
    let kind = record.kind;
    match kind {
        7 => record.a, // constant
        9 => record.b, // bound variable
        10 => record.c, // pair
        11 => record.c, // product
        12 => record.b, // powerset
        23 => record.b, // choice
        _ => files.word_at(record.b, 1), // application: the first of its types
    }
}

// The value of a cell that looks into part 0, or of the node itself.
fn inner_value(files: &Files, node: usize, code: usize) -> usize
    requires { (32 ≤ code) × (code < 96) }
    ensures { (table : List ℕ) (base : ℕ) → result ≡ value_in (words files.now) table node base code }
{
    if 80 <= code {
        return node;
    }
    let part = part_at(files, node, 0);
    if code < 48 {
        return files.word_at(part, (code - 32) as u8);
    }
    let inside = files.word_at(part, 1);
    if code < 64 {
        return files.word_at(inside, 1);
    }
    type_at(files, inside)
}

// The value of the cell of a line with byte `code`. `ends` has the concluding node of each record's block.
pub fn value_of(files: &Files, ends: &[usize], block: Block, code: usize) -> usize
    requires { block.base + code < 18446744073709551616 }
    ensures { result ≡ value_in (words files.now) ends.now block.node block.base code }
{
    if code < 16 {
        return 0;
    }
    if code < 32 {
        return part_at(files, block.node, code - 16);
    }
    if code < 96 {
        return inner_value(files, block.node, code);
    }
    if code < 128 {
        let premise = premise_at(files, block.node, code - 96);
        return entry_at(ends, premise);
    }
    block.base + (code - 128)
}
