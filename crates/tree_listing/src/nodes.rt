// The lines of nodes in walk order: a node, then its premises in chain order, up to a given number of nodes.
ghost use Rattle.reader.specs.Files.{words};
ghost use Rattle.std.specs.Prelude.{◌+◌, ◌*◌, ◌≤◌, length};
ghost use Rattle.tree_rules.specs.Order.{order};
ghost use Rattle.tree_rules.specs.OrderLaws.{order_from};
ghost use Rattle.tree_listing.specs.Lists.{Lists};

use reader::Files;
use tree_lines::lines;

// Where the text ends, and how many nodes are left to list.
#[derive(Clone, Copy)]
pub struct Listed {
    pub end: usize,
    pub left: usize,
}

// Lists the items of the chain of premises from link c on, which stand at this depth.
#[cycle(list_links_list_node)]
fn list_links(
    files: &Files,
    area: &mut [u8],
    at: usize,
    left: usize,
    depth: usize,
    c: usize,
) -> Listed
    requires { (at + 84 * left ≤ length area.old) × (depth + left ≤ 4294967296) }
    ensures { Lists (words files.now) (order_from (words files.now) c depth) area.old at left area.new result.end result.left }
{
    if c == 0 {
        return Listed { end: at, left };
    }
    let x = files.lower_at(c, 1);
    let done = list_node(files, area, at, left, depth, x);
    let next = files.lower_at(c, 3);
    list_links(files, area, done.end, done.left, depth, next)
}

// Lists the nodes from node n on, which stands at this depth, up to `left` of them, into the area from place `at` on.
#[cycle(list_links_list_node)]
pub fn list_node(
    files: &Files,
    area: &mut [u8],
    at: usize,
    left: usize,
    depth: usize,
    n: usize,
) -> Listed
    requires { (at + 84 * left ≤ length area.old) × (depth + left ≤ 4294967296) }
    ensures { Lists (words files.now) (order (words files.now) n depth) area.old at left area.new result.end result.left }
{
    if n == 0 {
        return Listed { end: at, left };
    }
    if left == 0 {
        return Listed { end: at, left };
    }
    let end = lines::append_node(files, area, at, depth, n);
    let c = files.lower_at(n, 2);
    list_links(files, area, end, left - 1, depth + 1, c)
}
