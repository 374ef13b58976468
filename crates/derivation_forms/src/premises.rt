// The premises of a node: their number and class.
ghost use Rattle.std.specs.Prelude.{◌≡◌};
ghost use Rattle.reader.specs.Files.{words};
ghost use Rattle.reader.specs.Trees.{lower};
ghost use Rattle.reader.specs.Members.{premises_fit};
ghost use Rattle.derivation_forms.specs.Premises.{are_nodes};

use derivation_frames::links;
use reader::kinds::Mode;
use reader::{Files, kinds};

// Are the items of chain c n rule nodes?
fn are_nodes(files: &Files, c: usize, n: usize) -> bool
    ensures { result ≡ are_nodes (words files.now) c n }
{
    let mut l = c;
    let mut left = n;
    while l != 0 {
        if left == 0 {
            return false;
        }
        let link = links::link_at(files, l);
        if !kinds::is_rule(Mode::Derivation as u8, files.word_at(link.item, 0)) {
            return false;
        }
        l = link.next;
        left -= 1;
    }
    left == 0
}

// Has node n, whose chain of premises is c, `count` premises, each a rule node?
pub fn premises_fit(files: &Files, n: usize, c: usize, count: usize) -> bool
    requires { c ≡ lower (words files.now) n 2 }
    ensures { result ≡ premises_fit 2 (words files.now) n count }
{
    are_nodes(files, c, count)
}
