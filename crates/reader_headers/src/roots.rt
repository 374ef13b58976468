// Refusal 11 of an obligation: its goal and hypotheses.
ghost use Rattle.std.specs.Prelude.{◌≡◌};
ghost use Rattle.reader.specs.Files.{words};
ghost use Rattle.reader.specs.Tests.{every};
ghost use Rattle.reader.specs.Trees.{tree};
ghost use Rattle.reader.specs.Chains.{item_trees};
ghost use Rattle.reader.specs.Places.{goal_fits, hypothesis_fits, hypotheses_fit};
ghost use Rattle.reader_headers.specs.Roots.{is_open_below, roots_fit};

use reader::kinds::{Class, Kind};
use reader::{Files, chains, kinds};
use reader_variables::variables;

// Is the goal a closed ¬?
fn goal_fits(files: &Files) -> bool
    ensures { result ≡ goal_fits (words files.now) }
{
    let goal = files.word_at(0, 3);
    if files.word_at(goal, 0) != Kind::Not as usize {
        return false;
    }
    variables::is_closed(files, goal)
}

// Has record i no unbound index, and no type variable from n on?
fn is_open_below(files: &Files, i: usize, n: usize) -> bool
    ensures { result ≡ is_open_below n (tree (words files.now) i) }
{
    if !variables::indices_below(files, i, 0) {
        return false;
    }
    variables::types_below(files, i, n)
}

// Can record i be a hypothesis?
fn hypothesis_fits(files: &Files, i: usize) -> bool
    ensures { result ≡ hypothesis_fits (tree (words files.now) i) }
{
    if i == 0 {
        return false;
    }
    let k = files.word_at(i, 0);
    if k == Kind::ForAllTypes as usize {
        return is_open_below(files, i, files.atom_at(i));
    }
    if kinds::class_of(k) != Class::Formula as u8 {
        return false;
    }
    is_open_below(files, i, 0)
}

// Can every item of the chain from link c on be a hypothesis?
fn every_hypothesis(files: &Files, c: usize) -> bool
    ensures { result ≡ every hypothesis_fits (item_trees (words files.now) c) }
{
    files
        .links(c)
        .all(|l| hypothesis_fits(files, files.lower_at(l, 1)))
}

// Does the chain of hypotheses fit?
fn hypotheses_fit(files: &Files) -> bool
    ensures { result ≡ hypotheses_fit (words files.now) }
{
    let c = files.word_at(0, 2);
    if c == 0 {
        return true;
    }
    if files.word_at(c, 0) != Kind::Link as usize {
        return false;
    }
    if !every_hypothesis(files, c) {
        return false;
    }
    chains::at_most(files, c, 256)
}

// Do the roots of an obligation fit?
pub fn roots_fit(files: &Files) -> bool
    ensures { result ≡ roots_fit (words files.now) }
{
    if !goal_fits(files) {
        return false;
    }
    hypotheses_fit(files)
}
