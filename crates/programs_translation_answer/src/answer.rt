// The translation of two files, written into a lent buffer, and the line of its answer, written into a lent area.
ghost use Rattle.translation.specs.Numbers.{answer_in, length_in};
ghost use Rattle.programs_translation_answer.specs.Shown.{Shown};

use programs_lines::lines;
use reader::Refusal;
use translation::{Translation, translate};

// What came of a pair, and where the line begins.
#[derive(Clone, Copy)]
pub struct Outcome {
    pub translated: Result<Translation, Refusal>,
    pub begin: usize,
}

// Translates into the buffer, and writes the line of the answer at the end of the area.
pub fn put_answer(
    obligation: &[u8],
    proof: &[u8],
    buffer: &mut [u8],
    out: &mut [u8; 105],
) -> Outcome
    ensures { Shown obligation.now proof.now buffer.old buffer.new out.old out.new (answer_in result.translated) (length_in result.translated) result.begin }
{
    let translated = translate::translate(obligation, proof, buffer);
    let (answer, length) = Translation::numbers(translated);
    let begin = lines::put_translation(out, answer, length);
    Outcome { translated, begin }
}
