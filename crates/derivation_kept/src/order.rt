// A member looked for from the place of the last one on: the parts that BR2 keeps mostly stand in the order of the members.
ghost use Rattle.reader.specs.Files.{words};
ghost use Rattle.std.specs.Prelude.{◌<◌, length};
ghost use Rattle.derivation_trees.specs.Table.{Table};
ghost use Rattle.derivation_kept.specs.Order.{Behind, Found};

use derivation_frames::links;
use derivation_trees::keys;
use reader::Files;

// The first link of chain p whose item has key x, 0 for none.
fn found(files: &Files, keys: &[usize], p: usize, x: usize) -> usize
    requires { Table (words files.now) keys.now × (p < length keys.now) }
    ensures { Found (words files.now) (length keys.now) p x result }
{
    let mut q = p;
    while q != 0 {
        let link = links::link_at(files, q);
        let k = keys::key_of(files, keys, link.item);
        if k == x {
            return q;
        }
        q = link.next;
    }
    0
}

// A link of chain b whose item has key x, the first from link p on, or of the whole chain where it may be run along again; 0 where none is found.
pub fn sought(files: &Files, keys: &[usize], b: usize, p: usize, x: usize, again: bool) -> usize
    requires { Table (words files.now) keys.now × (b < length keys.now) × (p < length keys.now) × Behind (words files.now) b p }
    ensures { Found (words files.now) (length keys.now) b x result }
{
    let q = found(files, keys, p, x);
    if q != 0 {
        return q;
    }
    if !again {
        return 0;
    }
    found(files, keys, b, x)
}
