// Parts of records whose kind is read already.
ghost use Rattle.std.specs.Prelude.{◌≡◌};
ghost use Rattle.reader.specs.Files.{words};
ghost use Rattle.reader_chains.specs.Parts.{part_at};

use reader::kinds::Role;
use reader::{Files, kinds};

// What word w of record i, of kind k, refers to, 0 where that is no part of its tree.
pub fn part_at(files: &Files, k: usize, i: usize, w: u8) -> usize
    ensures { result ≡ part_at (words files.now) k i w }
{
    if kinds::role_of(k, w) < Role::Item as u8 {
        return 0;
    }
    files.lower_at(i, w)
}
