// The C library, all entries of the desk and nothing else: two byte areas in, the answer's four numbers in the bits of one.
#![tactic(auto)]

ghost use Rattle.reader.specs.Places.{reading};
ghost use Rattle.proof_rules.specs.Check.{proof_answer};
ghost use Rattle.derivation_rules.specs.Check.{derivation_answer};
ghost use Rattle.std.specs.Prelude.{length as size};
ghost use Rattle.translation_rules.specs.Check.{translation_answer};
ghost use Rattle.translation_meaning.specs.Translates.{Translates};
ghost use Rattle.favashears_pack.specs.Pack.{Unpacks};

use favashears::entries;

// The answer to an obligation and a proof.
#[unsafe(no_mangle)]
pub extern "C" fn desk_check_proof(obligation: &[u8], proof: &[u8]) -> u64
    ensures { Unpacks result (proof_answer obligation.now proof.now) }
{
    entries::desk_check_proof(obligation, proof)
}

// The answer to an obligation and a derivation.
#[unsafe(no_mangle)]
pub extern "C" fn desk_check_derivation(obligation: &[u8], derivation: &[u8]) -> u64
    ensures { Unpacks result (derivation_answer obligation.now derivation.now) }
{
    entries::desk_check_derivation(obligation, derivation)
}

// The answer to an obligation, a proof and a buffer, and the derivation's length, 0 on a refusal.
#[unsafe(no_mangle)]
pub extern "C" fn desk_translate(
    obligation: &[u8],
    proof: &[u8],
    buffer: &mut [u8],
    length: &mut u64,
) -> u64
    ensures fact_1 { Unpacks result (translation_answer obligation.now proof.now (size buffer.old)) }
    ensures fact_2 { Translates obligation.now proof.now buffer.old buffer.new
        (translation_answer obligation.now proof.now (size buffer.old)) length.new }
{
    entries::desk_translate(obligation, proof, buffer, length)
}

// Places 1 to 12 of an obligation and a proof.
#[unsafe(no_mangle)]
pub extern "C" fn desk_read_proof(obligation: &[u8], proof: &[u8]) -> u64
    ensures { Unpacks result (reading 1 obligation.now proof.now) }
{
    entries::desk_read_proof(obligation, proof)
}

// Places 1 to 12 of an obligation and a derivation.
#[unsafe(no_mangle)]
pub extern "C" fn desk_read_derivation(obligation: &[u8], derivation: &[u8]) -> u64
    ensures { Unpacks result (reading 2 obligation.now derivation.now) }
{
    entries::desk_read_derivation(obligation, derivation)
}
