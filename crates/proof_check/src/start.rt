// "The sequent starts as the hypotheses and the negated goal."
ghost use Rattle.std.specs.Prelude.{◌≡◌, ◌≤◌, length};
ghost use Rattle.reader.specs.Files.{words};
ghost use Rattle.reader.specs.Chains.{item_trees};
ghost use Rattle.reader.specs.Places.{hypothesis_chain};
ghost use Rattle.proof_rules.specs.Check.{start_sequent};
ghost use Rattle.proof_members.specs.Sequents.{sequent, Ready};
ghost use Rattle.proof_check.specs.Started.{Starting};

use proof_members::add;
use reader::Files;

// Adds the hypotheses, at most 256, to an empty sequent; their number.
fn add_hypotheses(files: &Files, numbers: &[usize], memory: &mut [usize]) -> usize
    requires { Starting (words files.now) numbers.now memory.old }
    ensures { Ready (words files.now) numbers.now memory.new result × (sequent (words files.now) memory.new result ≡ item_trees (words files.now) (hypothesis_chain (words files.now))) × (result ≤ 256) }
{
    let mut l = files.word_at(0, 2);
    for h in 0..256 {
        if l == 0 {
            return h;
        }
        let item = files.lower_at(l, 1);
        add::add_record(files, numbers, memory, h, item);
        l = files.lower_at(l, 3);
    }
    256
}

// Stores the start; the number of its members.
pub fn store_start(files: &Files, numbers: &[usize], memory: &mut [usize]) -> usize
    requires { Starting (words files.now) numbers.now memory.old }
    ensures { Ready (words files.now) numbers.now memory.new result × (sequent (words files.now) memory.new result ≡ start_sequent (words files.now)) }
{
    let h = add_hypotheses(files, numbers, memory);
    let goal = files.word_at(0, 3);
    add::add_record(files, numbers, memory, h, goal);
    h + 1
}
