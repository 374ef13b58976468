// Closedness of any record: its reach, compared.
ghost use Rattle.std.specs.Prelude.{◌≡◌, length};
ghost use Rattle.reader.specs.Files.{words};
ghost use Rattle.reader.specs.Trees.{tree};
ghost use Rattle.reader.specs.Variables.{indices_below, types_below, is_closed};
ghost use Rattle.reader_closedness.specs.Reaches.{Reached};

use crate::reaches::known_reach;
use reader::Files;

// Is every index of record i below d, or bound in it?
pub fn indices_below(files: &Files, reaches: &[usize], i: usize, d: usize) -> bool
    requires { Reached (words files.now) reaches.now (length reaches.now) }
    ensures { result ≡ indices_below d (tree (words files.now) i) }
{
    known_reach(files, reaches, reaches.len() / 2, false, i) <= d
}

// Is every type variable of record i below p?
fn types_below(files: &Files, reaches: &[usize], i: usize, p: usize) -> bool
    requires { Reached (words files.now) reaches.now (length reaches.now) }
    ensures { result ≡ types_below p (tree (words files.now) i) }
{
    known_reach(files, reaches, reaches.len() / 2, true, i) <= p
}

// Has record i no unbound index and no type variable?
pub fn is_closed(files: &Files, reaches: &[usize], i: usize) -> bool
    requires { Reached (words files.now) reaches.now (length reaches.now) }
    ensures { result ≡ is_closed (tree (words files.now) i) }
{
    if !indices_below(files, reaches, i, 0) {
        return false;
    }
    types_below(files, reaches, i, 0)
}
