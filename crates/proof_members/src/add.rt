// Members added to the sequent.
ghost use Rattle.std.specs.Prelude.{◌<◌, length};
ghost use Rattle.reader.specs.Files.{words};
ghost use Rattle.reader.specs.Trees.{tree, ◌=ᵗ◌, ¬ᵗ◌};
ghost use Rattle.proof_members.specs.Sequents.{Ready};
ghost use Rattle.proof_members.specs.Added.{Added};

use crate::keys;
use reader::Files;

// Adds record i.
pub fn add_record(files: &Files, numbers: &[usize], memory: &mut [usize], h: usize, i: usize)
    requires { Ready (words files.now) numbers.now memory.old h × (h < 1024) × (i < length numbers.now) }
    ensures { Added (words files.now) numbers.now memory.old h (tree (words files.now) i) memory.new }
{
    memory[h] = keys::key_of(files, numbers, i);
}
