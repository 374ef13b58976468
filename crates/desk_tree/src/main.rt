// `desk_tree OBLIGATION PROOF` checks a proof against its obligation, and writes the rule nodes that the check enters, one on a line, and the refusal if there is
// one.
#![tactic(auto)]

ghost use Rattle.std.specs.Prelude.{◌≡◌, length};
ghost use Rattle.programs_limits.specs.Limits.{obligation_read, proof_read};
ghost use Rattle.tree_rules.specs.Listing.{listing};

use programs::{arguments, files, output};
use std::env::Env;
use std::fs::Files;
use tree_listing::listing;

// Writes to standard output bytes that are the listing of two files, as its caller shows.
fn write_listing(rt: &(impl Print + Eprint), obligation: &[u8], proof: &[u8], text: &[u8])
    requires { text.now ≡ listing obligation.now proof.now }
{
    output::print(rt, text);
}

// Lists two files.
fn print_listing(rt: &(impl Print + Eprint), obligation: &[u8], proof: &[u8]) {
    let mut area = [0u8; 258147];
    let length = listing::put_listing(obligation, proof, &mut area);
    write_listing(rt, obligation, proof, &area[..length]);
}

// Reads both files into the areas, one byte more of each than an accepted one has, and lists what stands there.
fn list_files(rt: &(impl Files + Env + Print + Eprint), obligation: &mut [u8], proof: &mut [u8])
    requires { (length obligation.old ≡ obligation_read) × (length proof.old ≡ proof_read) }
{
    let Some((m, n)) = files::load_both(rt, obligation, proof) else {
        return;
    };
    print_listing(rt, &obligation[..m], &proof[..n]);
}

fn main(rt: HostRuntime) {
    if !arguments::end_at(&rt, 2) {
        let _ = rt.eprintln("usage: desk_tree OBLIGATION PROOF");
        return;
    }
    let mut obligation = [0u8; 16385];
    let mut proof = [0u8; 49169];
    list_files(&rt, &mut obligation, &mut proof);
}
