// `desk_derivation OBLIGATION DERIVATION` checks a derivation against its obligation, and writes the answer's four numbers on one line.
#![tactic(auto)]

ghost use Rattle.std.specs.Prelude.{◌≡◌, length};
ghost use Rattle.derivation_rules.specs.Check.{derivation_answer};
ghost use Rattle.programs_lines.specs.Lines.{line};
ghost use Rattle.programs_limits.specs.Limits.{obligation_read, derivation_read};

use programs::{arguments, files, output};
use programs_derivation_answer::answer;
use std::env::Env;
use std::fs::Files;

// Writes to standard output bytes that are the line of the answer to two files, as its caller shows.
fn write_answer(rt: &(impl Print + Eprint), obligation: &[u8], derivation: &[u8], text: &[u8])
    requires { text.now ≡ line (derivation_answer obligation.now derivation.now) }
{
    output::print(rt, text);
}

// Answers two files. `desk` has the same lines. No plainer: one function for both would take the check and the definition that it meets.
fn print_answer(rt: &(impl Print + Eprint), obligation: &[u8], derivation: &[u8]) {
    let mut out = [0u8; 84];
    let begin = answer::put_answer(obligation, derivation, &mut out);
    write_answer(rt, obligation, derivation, &out[begin..]);
}

// Reads both files into the areas, one byte more of each than an accepted one has, and answers what stands there.
fn answer_files(
    rt: &(impl Files + Env + Print + Eprint),
    obligation: &mut [u8],
    derivation: &mut [u8],
)
    requires { (length obligation.old ≡ obligation_read) × (length derivation.old ≡ derivation_read) }
{
    let Some((m, n)) = files::load_both(rt, obligation, derivation) else {
        return;
    };
    print_answer(rt, &obligation[..m], &derivation[..n]);
}

// Lends both areas: that they have those lengths stands in their types, and is not computed.
fn answer_in(
    rt: &(impl Files + Env + Print + Eprint),
    obligation: &mut [u8; 16385],
    derivation: &mut [u8; 3200017],
) {
    answer_files(rt, obligation, derivation);
}

fn main(rt: HostRuntime) {
    if !arguments::end_at(&rt, 2) {
        let _ = rt.eprintln("usage: desk_derivation OBLIGATION DERIVATION");
        return;
    }
    let mut obligation = [0u8; 16385];
    let mut derivation = [0u8; 3200017];
    answer_in(&rt, &mut obligation, &mut derivation);
}
