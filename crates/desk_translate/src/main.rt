// `desk_translate OBLIGATION PROOF DERIVATION` translates an accepted proof into a derivation, writes it to a file of that name, and writes the answer's
// four numbers and the derivation's length on one line.
#![tactic(auto)]

ghost use Rattle.std.specs.Prelude.{◌≡◌, length as size};
ghost use Rattle.proof_rules.specs.Check.{proof_answer};
ghost use Rattle.programs_lines.specs.Lines.{translation_line};
ghost use Rattle.programs_limits.specs.Limits.{obligation_read, proof_read, buffer_size};
ghost use Rattle.translation.specs.Numbers.{length_in};
ghost use Rattle.programs_translation_answer.specs.Shown.{Derives};

use programs::{arguments, files, output, saved};
use programs_translation_answer::answer;
use reader::Refusal;
use std::env::Env;
use std::fs::Files;
use translation::Translation;

// Saves bytes that the derivation check accepts beside the obligation, as its caller shows; whether it is done.
fn save_derivation(rt: &(impl Files + Env + Eprint), obligation: &[u8], derivation: &[u8]) -> bool
    requires { Derives obligation.now derivation.now }
{
    saved::save(rt, 3, derivation)
}

// Writes to standard output bytes that are the line of the proof check's answer to two files and of the derivation's length, as its caller shows.
fn write_answer(
    rt: &(impl Print + Eprint),
    obligation: &[u8],
    proof: &[u8],
    translated: Result<Translation, Refusal>,
    text: &[u8],
)
    requires { text.now ≡ translation_line (proof_answer obligation.now proof.now) (length_in translated) }
{
    output::print(rt, text);
}

// Saves the derivation of an accepted pair, and then writes the line of the answer: where the file can't be written there is no line.
fn answer_into(
    rt: &(impl Files + Env + Print + Eprint),
    obligation: &[u8],
    proof: &[u8],
    buffer: &mut [u8],
)
    requires { size buffer.old ≡ buffer_size }
{
    let mut out = [0u8; 105];
    let outcome = answer::put_answer(obligation, proof, buffer, &mut out);
    if let Ok(t) = outcome.translated {
        if !save_derivation(rt, obligation, &buffer[..t.length]) {
            return;
        }
    }
    write_answer(
        rt,
        obligation,
        proof,
        outcome.translated,
        &out[outcome.begin..],
    );
}

// Lends the buffer: that it has that length stands in its type, and is not computed.
fn answer_by(
    rt: &(impl Files + Env + Print + Eprint),
    obligation: &[u8],
    proof: &[u8],
    buffer: &mut [u8; 3146768],
) {
    answer_into(rt, obligation, proof, buffer);
}

// Answers two files by a buffer that has room for the derivation of the longest proof.
fn answer_pair(rt: &(impl Files + Env + Print + Eprint), obligation: &[u8], proof: &[u8]) {
    let mut buffer = [0u8; 3146768];
    answer_by(rt, obligation, proof, &mut buffer);
}

// Reads both files into the areas, one byte more of each than an accepted one has, and answers what stands there.
fn answer_files(rt: &(impl Files + Env + Print + Eprint), obligation: &mut [u8], proof: &mut [u8])
    requires { (size obligation.old ≡ obligation_read) × (size proof.old ≡ proof_read) }
{
    let Some((m, n)) = files::load_both(rt, obligation, proof) else {
        return;
    };
    answer_pair(rt, &obligation[..m], &proof[..n]);
}

fn main(rt: HostRuntime) {
    if !arguments::end_at(&rt, 3) {
        let _ = rt.eprintln("usage: desk_translate OBLIGATION PROOF DERIVATION");
        return;
    }
    let mut obligation = [0u8; 16385];
    let mut proof = [0u8; 49169];
    answer_files(&rt, &mut obligation, &mut proof);
}
