// The check of a proof, the room that its translation wants, and the translation.
ghost use Rattle.translation_meaning.specs.Translates.{Translates};
ghost use Rattle.translation.specs.Numbers.{answer_in, length_in};

use crate::Translation;
use proof_check::check::check_proof;
use reader::{Fault, Refusal, words};
use translation_file::derivation::put_derivation;

// Translates an accepted proof of the obligation into a derivation, written at the buffer's start.
pub fn translate(obligation: &[u8], proof: &[u8], buffer: &mut [u8]) -> Result<Translation, Refusal>
    ensures { Translates obligation.now proof.now buffer.old buffer.new (answer_in result) (length_in result) }
{
    let nodes = check_proof(obligation, proof)?;
    let n = words::word_of(proof, 0, 1);
    if buffer.len() < 16 * (1 + 64 * (n + 1)) {
        return Err(Refusal {
            fault: Fault::Buffer,
            file: 2,
            at: 0,
            nodes,
        });
    }
    let length = put_derivation(obligation, proof, buffer);
    Ok(Translation { nodes, length })
}
