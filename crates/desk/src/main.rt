// `desk OBLIGATION PROOF` checks a proof against its obligation, and writes the answer's four numbers on one line.
#![tactic(auto)]

ghost use Rattle.std.specs.Prelude.{◌≡◌, length};
ghost use Rattle.proof_rules.specs.Check.{proof_answer};
ghost use Rattle.programs_lines.specs.Lines.{line};
ghost use Rattle.programs_limits.specs.Limits.{obligation_read, proof_read};

use programs::{arguments, files, output};
use programs_proof_answer::answer;
use std::env::Env;
use std::fs::Files;

// Writes to standard output bytes that are the line of the answer to two files, as its caller shows.
fn write_answer(rt: &(impl Print + Eprint), obligation: &[u8], proof: &[u8], text: &[u8])
    requires { text.now ≡ line (proof_answer obligation.now proof.now) }
{
    output::print(rt, text);
}

// Answers two files.
fn print_answer(rt: &(impl Print + Eprint), obligation: &[u8], proof: &[u8]) {
    let mut out = [0u8; 84];
    let begin = answer::put_answer(obligation, proof, &mut out);
    write_answer(rt, obligation, proof, &out[begin..]);
}

// Reads both files into the areas, one byte more of each than an accepted one has, and answers what stands there.
fn answer_files(rt: &(impl Files + Env + Print + Eprint), obligation: &mut [u8], proof: &mut [u8])
    requires { (length obligation.old ≡ obligation_read) × (length proof.old ≡ proof_read) }
{
    let Some((m, n)) = files::load_both(rt, obligation, proof) else {
        return;
    };
    print_answer(rt, &obligation[..m], &proof[..n]);
}

fn main(rt: HostRuntime) {
    if !arguments::end_at(&rt, 2) {
        let _ = rt.eprintln("usage: desk OBLIGATION PROOF");
        return;
    }
    let mut obligation = [0u8; 16385];
    let mut proof = [0u8; 49169];
    answer_files(&rt, &mut obligation, &mut proof);
}
