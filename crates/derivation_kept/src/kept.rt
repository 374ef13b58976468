// BR2 in one run along the chain of its parts: refusals 13 to 15 and 17 ask of each of 2,048 parts in turn, and a chain is slow to follow.
ghost use Rattle.reader.specs.Files.{words};
ghost use Rattle.std.specs.Prelude.{◌<◌, length};
ghost use Rattle.derivation_trees.specs.Keys.{Normal};
ghost use Rattle.derivation_paths.specs.Tables.{Tables};
ghost use Rattle.derivation_kept.specs.Kept.{ClosedFormula, AllKept};

use crate::order::sought;
use derivation_closedness::closed;
use derivation_forms::formed;
use derivation_frames::links;
use derivation_trees::keys;
use reader::Files;

// Is the tree with this key a closed formula?
fn is_closed_formula(files: &Files, keys: &[usize], reaches: &[u16], key: usize) -> bool
    requires { Tables (words files.now) keys.now reaches.now × Normal (words files.now) (length keys.now) key }
    ensures { ClosedFormula (words files.now) key result }
{
    if !formed::is_formula(files, keys, key) {
        return false;
    }
    closed::is_below(files, keys, reaches, key, 0)
}

// Are the items of chain c at most 2,048, each a closed formula that is found in chain b, which is run along no more than twice? They may be, where the answer is no.
pub fn all_kept(files: &Files, keys: &[usize], reaches: &[u16], b: usize, c: usize) -> bool
    requires { Tables (words files.now) keys.now reaches.now × (b < length keys.now) × (c < length keys.now) }
    ensures { AllKept (words files.now) b c result }
{
    let mut l = c;
    let mut p = b;
    let mut again = true;
    let mut left: usize = 2048;
    while l != 0 {
        if left == 0 {
            return false;
        }
        let link = links::link_at(files, l);
        let x = keys::key_of(files, keys, link.item);
        if !is_closed_formula(files, keys, reaches, x) {
            return false;
        }
        let q = sought(files, keys, b, p, x, again);
        if q == 0 {
            return false;
        }
        again = q <= p;
        p = q;
        l = link.next;
        left -= 1;
    }
    true
}
