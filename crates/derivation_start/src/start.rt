// "The start is: hypotheses ⊢ goal."
ghost use Rattle.reader.specs.Files.{words};
ghost use Rattle.std.specs.Prelude.{length};
ghost use Rattle.derivation_start.specs.Started.{Starting, Started};

use derivation_frames::frames;
use derivation_nodes::push;
use derivation_trees::keys;
use reader::Files;

// Writes the frame of the root.
pub fn store_start(files: &Files, keys: &[usize], frames: &mut [usize])
    requires { Starting (words files.now) keys.now frames.old }
    ensures { Started (words files.now) (length keys.now) frames.old frames.new }
{
    let chain = files.word_at(0, 2);
    let negated = files.word_at(0, 3);
    let formula = files.child_at(negated, 1);
    let goal = keys::key_of(files, keys, formula);
    let count = push::chain_length(files, chain);
    frames::write(frames, 1, 1, goal, chain, count);
}
