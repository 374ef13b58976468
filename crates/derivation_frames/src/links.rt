// Nodes and links: each is one record, which is fetched once.
ghost use Rattle.std.specs.Prelude.{◌≡◌};
ghost use Rattle.reader.specs.Files.{words};
ghost use Rattle.reader.specs.Tests.{if_lt};
ghost use Rattle.derivation_frames.specs.Links.{NodeIs, LinkIs};

use crate::{Link, Node};
use reader::Files;

// What word a of record i refers to, 0 where that is no smaller record.
fn lowered(i: usize, a: usize) -> usize
    ensures { result ≡ if_lt a i a 0 }
{
    if a < i { a } else { 0 }
}

// Node n.
pub fn node_at(files: &Files, n: usize) -> Node
    ensures { NodeIs (words files.now) n result }
{
    let x = files.record_at(n);
    Node {
        kind: x.kind,
        parts: lowered(n, x.a),
        premises: lowered(n, x.b),
    }
}

// Link l.
pub fn link_at(files: &Files, l: usize) -> Link
    ensures { LinkIs (words files.now) l result }
{
    let x = files.record_at(l);
    Link {
        item: lowered(l, x.a),
        next: lowered(l, x.c),
    }
}
