// Freshness: a constant is in no member. The records from the constant's on are marked first, each once, so that shared records are not visited again.
ghost use Rattle.std.specs.Prelude.{◌≡◌, ◌+◌, ◌<◌, ◌≤◌, length};
ghost use Rattle.reader.specs.Files.{words};
ghost use Rattle.reader.specs.Trees.{tree};
ghost use Rattle.reader.specs.Variables.{occurs};
ghost use Rattle.reader.specs.Members.{is_fresh};
ghost use Rattle.reader_equality.specs.Tables.{Zeros};
ghost use Rattle.proof_members.specs.Keys.{decoded, Normal};
ghost use Rattle.proof_members.specs.Sequents.{sequent, Ready};
ghost use Rattle.proof_fresh.specs.Marks.{Marked, mark_of, constant_at, part_marked};

use reader::Files;
use reader::kinds::Kind;

// Is constant c in record x, by the marks of the records below n?
fn is_marked(files: &Files, marks: &[usize], c: usize, n: usize, x: usize) -> bool
    requires { (n ≤ length marks.now) × (x < n) × Marked (words files.now) c marks.now n }
    ensures { result ≡ occurs c (tree (words files.now) x) }
{
    if x < c {
        return false;
    }
    marks[x] == 1
}

// Is constant c in what word w of record j refers to?
fn part_marked(files: &Files, marks: &[usize], c: usize, j: usize, w: u8) -> bool
    requires { (0 < j) × (j ≤ length marks.now) × Marked (words files.now) c marks.now j }
    ensures { result ≡ part_marked (words files.now) c j w }
{
    let x = files.child_at(j, w);
    is_marked(files, marks, c, j, x)
}

// Is record j the constant c?
fn is_constant(files: &Files, c: usize, j: usize) -> bool
    ensures { result ≡ constant_at (words files.now) c j }
{
    if j != c {
        return false;
    }
    files.word_at(j, 0) == Kind::Constant as usize
}

// The mark of record j, 1 where constant c is in it, from the marks of the smaller records.
fn mark_of(files: &Files, marks: &[usize], c: usize, j: usize) -> usize
    requires { (j ≤ length marks.now) × Marked (words files.now) c marks.now j }
    ensures { result ≡ mark_of (occurs c (tree (words files.now) j)) }
{
    if j == 0 {
        return 0;
    }
    if is_constant(files, c, j) {
        return 1;
    }
    if part_marked(files, marks, c, j, 1) {
        return 1;
    }
    if part_marked(files, marks, c, j, 2) {
        return 1;
    }
    if part_marked(files, marks, c, j, 3) {
        return 1;
    }
    0
}

// No loop in common with that of `derivation_marks`, no plainer: the tables differ in their types and in what an entry says.
// Marks the records from c on, below n.
fn mark_all(files: &Files, marks: &mut [usize], c: usize, n: usize)
    requires { n ≤ length marks.old }
    ensures { Marked (words files.now) c marks.new n }
{
    for j in c..n {
        marks[j] = mark_of(files, marks, c, j);
    }
}

// Is constant c in the member with this key, by the marks of the records below n?
fn member_marked(files: &Files, marks: &[usize], c: usize, n: usize, key: usize) -> bool
    requires { (n ≤ length marks.now) × Normal (words files.now) n key × Marked (words files.now) c marks.now n }
    ensures { result ≡ occurs c (decoded (words files.now) key) }
{
    if is_marked(files, marks, c, n, key / 4 / 4096) {
        return true;
    }
    is_marked(files, marks, c, n, key / 4 % 4096)
}

// Is constant c in no member, by the marks of the numbered records?
fn none_marked(
    files: &Files,
    numbers: &[usize],
    memory: &[usize],
    marks: &[usize],
    h: usize,
    c: usize,
) -> bool
    requires { Ready (words files.now) numbers.now memory.now h × (length numbers.now ≤ length marks.now) × Marked (words files.now) c marks.now (length numbers.now) }
    ensures { result ≡ is_fresh (sequent (words files.now) memory.now h) c }
{
    let n = numbers.len();
    for key in &memory[..h] {
        if member_marked(files, marks, c, n, *key) {
            return false;
        }
    }
    true
}

// Is constant c fresh? The marks are scratch, zeros afterwards.
pub fn is_fresh(
    files: &Files,
    numbers: &[usize],
    memory: &[usize],
    marks: &mut [usize],
    h: usize,
    c: usize,
) -> bool
    requires { Ready (words files.now) numbers.now memory.now h × (length numbers.now ≤ length marks.old) }
    ensures { (result ≡ is_fresh (sequent (words files.now) memory.now h) c) × Zeros marks.new }
{
    mark_all(files, marks, c, numbers.len());
    let r = none_marked(files, numbers, memory, marks, h, c);
    marks.fill(0);
    r
}
