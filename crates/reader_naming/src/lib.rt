// Refusal 12: each rule node is named exactly once, by a premise chain or the header's root.
// A link that two chains have run over names its items twice already, so no chain runs over it a third time: the time is linear.
#![tactic(auto)]

ghost use Rattle.std.specs.Prelude.{◌≡◌, ◌+◌, ◌-◌, ◌<◌, ◌≤◌, min, length, get_or};
ghost use Rattle.reader.specs.Files.{words};
ghost use Rattle.reader.specs.Trees.{lower};
ghost use Rattle.reader_naming.specs.Counts.{bumped, Settled, Added};
ghost use Rattle.reader_naming.specs.Totals.{Counted, Total, count_fault, Cleared, Rooted};
ghost use Rattle.reader.specs.Answers.{first_fault};
ghost use Rattle.reader.specs.Refusals.{fault_of, reading_of};
ghost use Rattle.reader.specs.Places.{naming_fault, root_of};

use reader::{Fault, Files, Refusal, kinds, words};

// A link run over so often is run over no more.
const TWICE: u8 = 2;

// One more, at most 2.
fn up(count: u8) -> u8
    ensures { result ≡ min 2 (count + 1) }
{
    if count < 2 { count + 1 } else { 2 }
}

// Entry k is one more, at most 2.
fn bump(table: &mut [u8], k: usize)
    requires { k < length table.old }
    ensures { table.new ≡ bumped table.old k }
{
    table[k] = up(table[k]);
}

// Entry k.
fn entry(table: &[u8], k: usize) -> u8
    requires { k < length table.now }
    ensures { result ≡ get_or table.now k 0 }
{
    table[k]
}

// Counts link i and what it names.
fn run_over(files: &Files, named: &mut [u8], passed: &mut [u8], i: usize)
    requires { (0 < i) × (i < length named.old) × (i < length passed.old) }
    ensures { (named.new ≡ bumped named.old (lower (words files.now) i 1)) × (passed.new ≡ bumped passed.old i) }
{
    bump(passed, i);
    bump(named, files.lower_at(i, 1));
}

// Counts what the chain from link c on names.
fn pass_chain(files: &Files, named: &mut [u8], passed: &mut [u8], c: usize)
    requires { (c < length named.old) × (c < length passed.old) × Settled (words files.now) named.old passed.old }
    ensures { Settled (words files.now) named.new passed.new × Added (words files.now) c named.old named.new }
{
    let mut i = c;
    while i != 0 {
        if TWICE <= entry(passed, i) {
            return;
        }
        run_over(files, named, passed, i);
        i = files.lower_at(i, 3);
    }
}

// Counts what node j's premise chain names, where j is a rule node of a file of kind `mode`.
fn count_node(files: &Files, mode: u8, named: &mut [u8], passed: &mut [u8], j: usize)
    requires { (j < length named.old) × (j < length passed.old) × (0 < j) × Settled (words files.now) named.old passed.old }
    ensures { Settled (words files.now) named.new passed.new × Counted mode (words files.now) j named.old named.new }
{
    let x = files.record_at(j);
    if kinds::is_rule(mode, x.kind) {
        pass_chain(files, named, passed, files.lower_at(j, 2));
    }
}

// Counts what the premise chains of the rule nodes among records 1 to last name.
fn count_nodes(files: &Files, mode: u8, named: &mut [u8], passed: &mut [u8], last: usize)
    requires { (last < length named.old) × (last < length passed.old) × Settled (words files.now) named.old passed.old }
    ensures { Total mode (words files.now) last named.old named.new }
{
    for j in 1..last + 1 {
        count_node(files, mode, named, passed, j);
    }
}

// Refuses record i where it is a rule node whose count is not 1.
fn count_fault(files: &Files, mode: u8, named: &[u8], i: usize) -> Result<(), Fault>
    requires { i < length named.now }
    ensures { fault_of result ≡ count_fault mode (words files.now) named.now i }
{
    let x = files.record_at(i);
    if !kinds::is_rule(mode, x.kind) {
        return Ok(());
    }
    let count = entry(named, i);
    if count == 1 {
        Ok(())
    } else {
        Err(Fault::Naming)
    }
}

// The first rule node from record `first` on, up to `last`, whose count is not 1.
fn first_miscounted(
    files: &Files,
    mode: u8,
    named: &[u8],
    first: usize,
    last: usize,
) -> Result<(), Refusal>
    requires { last < length named.now }
    ensures { reading_of result ≡ first_fault (count_fault mode (words files.now) named.now) 2 (last + 1 - first) first }
{
    for i in first..last + 1 {
        if let Err(fault) = count_fault(files, mode, named, i) {
            return Err(Refusal {
                fault,
                file: 2,
                at: i,
                nodes: 0,
            });
        }
    }
    Ok(())
}

// Counts the header's root, where it is a record.
fn count_root(named: &mut [u8], root: usize)
    requires { Cleared named.old }
    ensures { Rooted root named.new }
{
    if root < named.len() {
        bump(named, root);
    }
}

// The first rule node of the second file, of kind `mode`, that is not named exactly once. The tables are zeros before.
fn first_by_counts(
    files: &Files,
    mode: u8,
    named: &mut [u8],
    passed: &mut [u8],
    last: usize,
) -> Result<(), Refusal>
    requires { (files.now.m ≤ last) × (last < length named.old) × (last < length passed.old) × Cleared named.old × Cleared passed.old }
    ensures { reading_of result ≡ first_fault (naming_fault mode (words files.now) (root_of files.now.second.now) last) 2 (last - files.now.m) (files.now.m + 1) }
{
    count_root(named, words::word_of(files.second, 0, 2));
    count_nodes(files, mode, named, passed, last);
    first_miscounted(files, mode, named, files.m + 1, last)
}

// The same. The tables are scratch: zeros before, and zeros again.
pub fn first_unnamed(
    files: &Files,
    mode: u8,
    named: &mut [u8],
    passed: &mut [u8],
    last: usize,
) -> Result<(), Refusal>
    requires { (files.now.m ≤ last) × (last < length named.old) × (last < length passed.old) × Cleared named.old × Cleared passed.old }
    ensures { (reading_of result ≡ first_fault (naming_fault mode (words files.now) (root_of files.now.second.now) last) 2 (last - files.now.m) (files.now.m + 1)) × Cleared named.new × Cleared passed.new }
{
    let r = first_by_counts(files, mode, named, passed, last);
    named.fill(0);
    passed.fill(0);
    r
}
