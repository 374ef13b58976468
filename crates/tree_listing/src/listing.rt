// The listing of an obligation and a proof, any two byte areas.
ghost use Rattle.programs_text.specs.Text.{Appended};
ghost use Rattle.tree_rules.specs.Listing.{listing};

use crate::nodes;
use programs_text::text;
use proof_check::check;
use reader::{Answer, Files, words};
use tree_lines::lines;

// Writes the listing to the area's start; its length. A line of four numbers has at most 84 bytes, and there are at most 3,072 nodes: with the first line and
// the last, 7 + 3,072 × 84 + 8 + 84 bytes are enough.
pub fn put_listing(obligation: &[u8], proof: &[u8], area: &mut [u8; 258147]) -> usize
    ensures { Appended area.old 0 (listing obligation.now proof.now) area.new result }
{
    let a = Answer::of(check::check_proof(obligation, proof));
    let m = words::word_of(obligation, 0, 1);
    let files = Files::new(obligation, proof, m);
    let root = words::word_of(proof, 0, 2);
    let first = text::append(area, 0, b"tree 1\n");
    let nodes = nodes::list_node(&files, area, first, a.nodes, 0, root);
    lines::append_ending(area, nodes.end, a)
}
