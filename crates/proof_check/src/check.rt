// The proof check of two byte areas.
ghost use Rattle.std.specs.Prelude.{◌≡◌, ◌+◌, min, length};
ghost use Rattle.reader.specs.Files.{words};
ghost use Rattle.reader.specs.Refusals.{answer_of};
ghost use Rattle.reader.specs.Words.{record_count};
ghost use Rattle.reader.specs.Places.{count_of, root_of, obligation_reading};
ghost use Rattle.proof_rules.specs.Check.{proof_walk, proof_answer};
ghost use Rattle.proof_check.specs.Started.{Entering};

use crate::start;
use proof_walk::walk;
use reader::{Files, Refusal, words};
use reader_closedness::fill::reach_all;
use reader_places::places;

// The walk over a pair that passes places 1 to 12: how many nodes it enters. The tables are scratch, but for the numbers.
fn walk_proof(
    files: &Files,
    numbers: &[usize],
    reaches: &mut [usize],
    memory: &mut [usize],
    scratch: &mut [usize],
) -> Result<usize, Refusal>
    requires { Entering files.now.obligation.now files.now.second.now files.now.m numbers.now memory.old scratch.old }
    ensures { answer_of result ≡ proof_walk (words files.now) (root_of files.now.second.now) }
{
    reach_all(files, reaches);
    let h = start::store_start(files, numbers, memory);
    let root = words::word_of(files.second, 0, 2);
    walk::walk_node(files, numbers, reaches, memory, scratch, h, root, 0)
}

// The check of a proof beside an obligation that passes its places. The numbers are found once, for the reading and for the walk.
fn check_numbered(files: &Files, numbers: &mut [usize]) -> Result<usize, Refusal>
    requires { ((obligation_reading files.now.obligation.now).refusal ≡ 0) × (files.now.m ≡ count_of files.now.obligation.now) × (length numbers.old ≡ min (files.now.m + record_count files.now.second.now) 4096) }
    ensures { answer_of result ≡ proof_answer files.now.obligation.now files.now.second.now }
{
    places::number_records(files, numbers);
    places::proof_reading(files, numbers)?;
    let size = numbers.len();
    let mut reaches = [0usize; 8192];
    let mut memory = [0usize; 1024];
    let mut scratch = [0usize; 4096];
    walk_proof(
        files,
        numbers,
        &mut reaches[..2 * size],
        &mut memory,
        &mut scratch[..size],
    )
}

// The check of an obligation and a proof, any two byte areas: how many nodes the walk enters.
pub fn check_proof(obligation: &[u8], proof: &[u8]) -> Result<usize, Refusal>
    ensures { answer_of result ≡ proof_answer obligation.now proof.now }
{
    places::obligation_reading(obligation)?;
    let m = words::word_of(obligation, 0, 1);
    let files = Files::new(obligation, proof, m);
    let size = places::table_size(&files);
    let mut numbers = [0usize; 4096];
    check_numbered(&files, &mut numbers[..size])
}
