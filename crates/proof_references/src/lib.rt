// A record as the walk wants it, fetched once: its kind, and what its words refer to.
#![tactic(auto)]

ghost use Rattle.std.specs.Prelude.{◌≡◌};
ghost use Rattle.reader.specs.Files.{words};
ghost use Rattle.reader.specs.Tests.{if_lt};
ghost use Rattle.proof_references.specs.References.{ReferencesAre};

use reader::Files;

// The kind of a record and the smaller records that its words 1 to 3 refer to, 0 where a word is no such reference.
#[derive(Clone, Copy)]
pub struct References {
    pub kind: usize,
    pub first: usize,
    pub second: usize,
    pub third: usize,
}

// What word a of record i refers to.
fn lower_in(i: usize, a: usize) -> usize
    ensures { result ≡ if_lt a i a 0 }
{
    if a < i { a } else { 0 }
}

// Record i.
pub fn references_of(files: &Files, i: usize) -> References
    ensures { ReferencesAre (words files.now) i result }
{
    let v = files.record_at(i);
    References {
        kind: v.kind,
        first: lower_in(i, v.a),
        second: lower_in(i, v.b),
        third: lower_in(i, v.c),
    }
}
