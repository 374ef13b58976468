// The premises of a node: their number and class.
ghost use Rattle.std.specs.Prelude.{◌≡◌};
ghost use Rattle.reader.specs.Files.{words};
ghost use Rattle.reader_bytes.specs.Bytes.{premises_of};
ghost use Rattle.proof_forms.specs.Premises.{are_nodes};

use proof_references::references_of;
use reader::kinds::Mode;
use reader::{Files, kinds};

// Are the items of chain c n rule nodes?
fn are_nodes(files: &Files, c: usize, n: usize) -> bool
    ensures { result ≡ are_nodes (words files.now) c n }
{
    let mut l = c;
    let mut left = n;
    while l != 0 {
        if left == 0 {
            return false;
        }
        let link = references_of(files, l);
        if !kinds::is_rule(Mode::Proof as u8, files.word_at(link.first, 0)) {
            return false;
        }
        l = link.third;
        left -= 1;
    }
    left == 0
}

// Are the items of chain c as many rule nodes as a rule with this byte has premises?
pub fn premises_fit(files: &Files, c: usize, byte: u8) -> bool
    ensures { result ≡ are_nodes (words files.now) c (premises_of byte) }
{
    are_nodes(files, c, reader_bytes::premises_of(byte))
}
