// The entries: two byte areas in, the answer's four numbers in the bits of one.
ghost use Rattle.reader.specs.Places.{reading};
ghost use Rattle.proof_rules.specs.Check.{proof_answer};
ghost use Rattle.derivation_rules.specs.Check.{derivation_answer};
ghost use Rattle.std.specs.Prelude.{length as size};
ghost use Rattle.translation_rules.specs.Check.{translation_answer};
ghost use Rattle.translation_meaning.specs.Translates.{Translates};
ghost use Rattle.favashears_pack.specs.Pack.{Unpacks};

use derivation_check::check::check_derivation;
use favashears_pack::packed::pack;
use proof_check::check::check_proof;
use reader::Answer;
use reader_places::places::{read_derivation, read_proof};
use translation::Translation;
use translation::translate::translate;

// The answer to an obligation and a proof.
pub fn desk_check_proof(obligation: &[u8], proof: &[u8]) -> u64
    ensures { Unpacks result (proof_answer obligation.now proof.now) }
{
    pack(Answer::of(check_proof(obligation, proof)))
}

// The answer to an obligation and a derivation.
pub fn desk_check_derivation(obligation: &[u8], derivation: &[u8]) -> u64
    ensures { Unpacks result (derivation_answer obligation.now derivation.now) }
{
    pack(Answer::of(check_derivation(obligation, derivation)))
}

// The answer to an obligation, a proof and a buffer, and the derivation's length, 0 on a refusal.
pub fn desk_translate(obligation: &[u8], proof: &[u8], buffer: &mut [u8], length: &mut u64) -> u64
    ensures fact_1 { Unpacks result (translation_answer obligation.now proof.now (size buffer.old)) }
    ensures fact_2 { Translates obligation.now proof.now buffer.old buffer.new
        (translation_answer obligation.now proof.now (size buffer.old)) length.new }
{
    let translated = translate(obligation, proof, buffer);
    let (answer, bytes) = Translation::numbers(translated);
    *length = bytes as u64;
    pack(answer)
}

// Places 1 to 12 of an obligation and a proof.
pub fn desk_read_proof(obligation: &[u8], proof: &[u8]) -> u64
    ensures { Unpacks result (reading 1 obligation.now proof.now) }
{
    pack(Answer::of_reading(read_proof(obligation, proof)))
}

// Places 1 to 12 of an obligation and a derivation.
pub fn desk_read_derivation(obligation: &[u8], derivation: &[u8]) -> u64
    ensures { Unpacks result (reading 2 obligation.now derivation.now) }
{
    pack(Answer::of_reading(read_derivation(obligation, derivation)))
}
