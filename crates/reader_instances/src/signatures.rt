// Type variables of signatures. A record whose type variables are found to be below the parameter count is marked in a lent table, and none is walked twice.
ghost use Rattle.std.specs.Prelude.{◌≡◌, ◌<◌};
ghost use Rattle.reader.specs.Files.{words};
ghost use Rattle.reader.specs.Trees.{tree};
ghost use Rattle.reader.specs.Variables.{types_below};
ghost use Rattle.reader_variables.specs.Variables.{types_below_parts};
ghost use Rattle.reader_instances.specs.Signatures.{Known};

use reader::Files;
use reader_chains::parts::part_at;
use reader_equality::tables;
use reader_variables::variables;

// Have the parts of record i, of kind k, no type variable from p on?
#[cycle(parts_known_types_known)]
fn parts_known(files: &Files, seen: &mut [usize], k: usize, i: usize, p: usize) -> bool
    requires { (0 < i) × Known (words files.now) p seen.old }
    ensures { (result ≡ types_below_parts (words files.now) k i p) × Known (words files.now) p seen.new }
{
    let x = part_at(files, k, i, 1);
    if !types_known(files, seen, x, p) {
        return false;
    }
    let y = part_at(files, k, i, 2);
    if !types_known(files, seen, y, p) {
        return false;
    }
    let z = part_at(files, k, i, 3);
    types_known(files, seen, z, p)
}

// Is every type variable of record i below p?
#[cycle(parts_known_types_known)]
pub fn types_known(files: &Files, seen: &mut [usize], i: usize, p: usize) -> bool
    requires { Known (words files.now) p seen.old }
    ensures { (result ≡ types_below p (tree (words files.now) i)) × Known (words files.now) p seen.new }
{
    if i == 0 {
        return true;
    }
    if tables::entry_at(seen, i) != 0 {
        return true;
    }
    let k = files.word_at(i, 0);
    if !variables::type_variable_below(files, k, i, p) {
        return false;
    }
    if !parts_known(files, seen, k, i, p) {
        return false;
    }
    tables::store(seen, i, 1);
    true
}
