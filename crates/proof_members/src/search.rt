// Is a formula a member of the sequent?
ghost use Rattle.std.specs.Prelude.{◌≡◌, ◌<◌, length};
ghost use Rattle.reader.specs.Files.{words};
ghost use Rattle.reader.specs.Trees.{tree, ◌=ᵗ◌, ¬ᵗ◌, ⊥ᵗ, ⊤ᵗ};
ghost use Rattle.reader.specs.Members.{member};
ghost use Rattle.proof_members.specs.Keys.{decoded, Normal};
ghost use Rattle.proof_members.specs.Sequents.{sequent, Ready};
ghost use Rattle.proof_members.specs.Signs.{sign, is_sign, Sign};

use reader::Files;
use reader::kinds::Kind;
use reader_types::shapes::tree_kind;

// Is the member with this key one of the first h?
pub fn holds(files: &Files, numbers: &[usize], memory: &[usize], h: usize, key: usize) -> bool
    requires { Ready (words files.now) numbers.now memory.now h × Normal (words files.now) (length numbers.now) key }
    ensures { result ≡ member (decoded (words files.now) key) (sequent (words files.now) memory.now h) }
{
    for other in &memory[..h] {
        if *other == key {
            return true;
        }
    }
    false
}

// Does the key stand for the sign of a kind without parts, or for ¬ before it?
fn is_sign(files: &Files, key: usize, negation: usize, kind: usize) -> bool
    ensures { result ≡ is_sign (words files.now) negation kind key }
{
    if key % 4 != negation {
        return false;
    }
    tree_kind(files, key / 4 / 4096) == kind
}

// Is the sign of a kind without parts a member, or ¬ before it where `negation` is 1?
fn holds_sign(
    files: &Files,
    numbers: &[usize],
    memory: &[usize],
    h: usize,
    negation: usize,
    kind: usize,
) -> bool
    requires { Ready (words files.now) numbers.now memory.now h × Sign (words files.now) negation kind }
    ensures { result ≡ member (sign negation kind) (sequent (words files.now) memory.now h) }
{
    for key in &memory[..h] {
        if is_sign(files, *key, negation, kind) {
            return true;
        }
    }
    false
}

// Is ⊥ a member?
pub fn holds_false(files: &Files, numbers: &[usize], memory: &[usize], h: usize) -> bool
    requires { Ready (words files.now) numbers.now memory.now h }
    ensures { result ≡ member ⊥ᵗ (sequent (words files.now) memory.now h) }
{
    holds_sign(files, numbers, memory, h, 0, Kind::False as usize)
}

// Is ¬⊤ a member?
pub fn holds_not_true(files: &Files, numbers: &[usize], memory: &[usize], h: usize) -> bool
    requires { Ready (words files.now) numbers.now memory.now h }
    ensures { result ≡ member (¬ᵗ ⊤ᵗ) (sequent (words files.now) memory.now h) }
{
    holds_sign(files, numbers, memory, h, 1, Kind::True as usize)
}
