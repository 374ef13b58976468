// The derivation check of two byte areas.
ghost use Rattle.std.specs.Prelude.{◌≡◌, ◌≤◌, length};
ghost use Rattle.reader.specs.Files.{words};
ghost use Rattle.reader.specs.Refusals.{answer_of};
ghost use Rattle.reader.specs.Places.{count_of, root_of};
ghost use Rattle.reader_equality.specs.Tables.{Zeros};
ghost use Rattle.derivation_rules.specs.Check.{derivation_walk, derivation_answer};
ghost use Rattle.derivation_check.specs.Entering.{Entering, Lent, Sized};

use derivation_closedness::closed;
use derivation_prepare::prepare::prepare;
use derivation_start::start;
use derivation_walk::walk;
use reader::{Files, Refusal, words};

// The walk over a pair that passes places 1 to 12. The tables are scratch.
fn walk_derivation(
    files: &Files,
    keys: &mut [usize],
    reaches: &mut [u16],
    known: &mut [usize],
    frames: &mut [usize; 32776],
) -> Result<usize, Refusal>
    requires { Entering files.now.obligation.now files.now.second.now files.now.m keys.old reaches.old frames.old × Zeros known.old }
    ensures { answer_of result ≡ derivation_walk (words files.now) (root_of files.now.second.now) }
{
    prepare(files, keys, false)?;
    closed::reach_all(files, reaches);
    start::store_start(files, keys, frames);
    let root = words::word_of(files.second, 0, 2);
    walk::walk(files, keys, reaches, known, frames, root)
}

// The answer to an obligation and a derivation, by tables that have room for their records. The tables are scratch.
fn check_within(
    files: &Files,
    keys: &mut [usize],
    reaches: &mut [u16],
    known: &mut [usize],
    frames: &mut [usize; 32776],
) -> Result<usize, Refusal>
    requires { (files.now.m ≡ count_of files.now.obligation.now) × Lent files.now.second.now keys.old reaches.old frames.old × Zeros known.old }
    ensures { answer_of result ≡ derivation_answer files.now.obligation.now files.now.second.now }
{
    prepare(files, keys, true)?;
    let size = files.m + words::word_of(files.second, 0, 1) + 1;
    walk_derivation(
        files,
        &mut keys[..size],
        &mut reaches[..size],
        known,
        frames,
    )
}

// The same by tables made here: for RECORDS records, and KNOWN words for the facts found about their trees.
fn check_by<const RECORDS: usize, const KNOWN: usize>(
    files: &Files,
    frames: &mut [usize; 32776],
) -> Result<usize, Refusal>
    requires { (files.now.m ≡ count_of files.now.obligation.now) × Sized files.now.second.now RECORDS × (KNOWN ≤ 19526) × (length frames.old ≡ 32776) }
    ensures { answer_of result ≡ derivation_answer files.now.obligation.now files.now.second.now }
{
    let mut keys = [0usize; RECORDS];
    let mut reaches = [0u16; RECORDS];
    let mut known = [0usize; KNOWN];
    check_within(files, &mut keys, &mut reaches, &mut known, frames)
}

// The answer to an obligation and a derivation, any two byte areas. Small tables, for a derivation of few records, are cleared sooner.
pub fn check_derivation(obligation: &[u8], derivation: &[u8]) -> Result<usize, Refusal>
    ensures { answer_of result ≡ derivation_answer obligation.now derivation.now }
{
    let m = words::word_of(obligation, 0, 1);
    let files = Files::new(obligation, derivation, m);
    let mut frames = [0usize; 32776];
    if words::record_count(derivation) <= 3073 {
        return check_by::<4096, 2048>(&files, &mut frames);
    }
    check_by::<201024, 19526>(&files, &mut frames)
}
