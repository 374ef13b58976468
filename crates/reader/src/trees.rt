// Trees of records: references, atoms, equality.
ghost use Rattle.std.specs.Prelude.{◌≡◌};
ghost use Rattle.reader.specs.Files.{words};
ghost use Rattle.reader.specs.Trees.{lower, child, atom};
ghost use Rattle.reader.specs.SameLaws.{same_head_at};

use crate::kinds::Role;
use crate::{Files, kinds};

impl Files<'_> {
    // The record that word w of record i refers to, 0 where it is no reference to a smaller one.
    pub fn lower_at(&self, i: usize, w: u8) -> usize
        ensures { result ≡ lower (words self.now) i w }
    {
        let a = self.word_at(i, w);
        if a < i { a } else { 0 }
    }

    // The same where it is a part of record i's tree, else 0.
    pub fn child_at(&self, i: usize, w: u8) -> usize
        ensures { result ≡ child (words self.now) i w }
    {
        if self.role_at(i, w) < Role::Item as u8 {
            return 0;
        }
        self.lower_at(i, w)
    }

    // What tells record i from others of its kind.
    pub fn atom_at(&self, i: usize) -> usize
        ensures { result ≡ atom (words self.now) i }
    {
        if kinds::is_symbol(self.word_at(i, 0)) {
            return i;
        }
        if kinds::is_number(self.role_at(i, 1)) {
            return self.word_at(i, 1);
        }
        0
    }
}

// Have records i and j one kind and one atom?
pub fn same_head(files: &Files, i: usize, j: usize) -> bool
    ensures { result ≡ same_head_at (words files.now) i j }
{
    if files.word_at(i, 0) != files.word_at(j, 0) {
        return false;
    }
    files.atom_at(i) == files.atom_at(j)
}
