// The lines of a listing, put behind what stands in a lent area. A line of four numbers has at most 84 bytes.
ghost use Rattle.reader.specs.Files.{words};
ghost use Rattle.std.specs.Prelude.{◌≡◌, ◌+◌, ◌≤◌, length};
ghost use Rattle.programs_lines.specs.Lines.{numbers_line};
ghost use Rattle.programs_text.specs.Text.{Appended};
ghost use Rattle.tree_rules.specs.Order.{node_at};
ghost use Rattle.tree_rules.specs.Listing.{first_part, node_line, ending};

use programs_lines::lines;
use programs_text::text;
use reader::{Answer, Files};

// Puts a line of four numbers into the area from place `at` on; where it ends.
fn append_numbers(area: &mut [u8], at: usize, a: usize, b: usize, c: usize, d: usize) -> usize
    requires { at + 84 ≤ length area.old }
    ensures { Appended area.old at (numbers_line a b c d) area.new result × (result ≤ at + 84) }
{
    let mut line = [0u8; 84];
    let begin = lines::put_numbers(&mut line, a, b, c, d);
    text::append(area, at, &line[begin..])
}

// The record of the first part of node n, 0 if none.
fn first_part(files: &Files, n: usize) -> usize
    ensures { result ≡ first_part (words files.now) n }
{
    let link = files.lower_at(n, 1);
    files.lower_at(link, 1)
}

// Puts the line of node n, which stands at this depth, into the area from place `at` on; where it ends.
pub fn append_node(files: &Files, area: &mut [u8], at: usize, depth: usize, n: usize) -> usize
    requires { at + 84 ≤ length area.old }
    ensures { Appended area.old at (node_line (words files.now) (node_at depth n)) area.new result × (result ≤ at + 84) }
{
    let kind = files.kind_at(n);
    let part = first_part(files, n);
    append_numbers(area, at, depth, n, kind, part)
}

// Puts the last line of a refusal, and nothing of acceptance, into the area from place `at` on; where it ends.
pub fn append_ending(area: &mut [u8], at: usize, a: Answer) -> usize
    requires { at + 92 ≤ length area.old }
    ensures { Appended area.old at (ending a) area.new result }
{
    if a.refusal == 0 {
        return at;
    }
    let numbers = text::append(area, at, b"refused ");
    append_numbers(area, numbers, a.refusal, a.file, a.at, a.nodes)
}
