// Kind, atom and parts of the tree that a key stands for.
ghost use Rattle.std.specs.Prelude.{◌≡◌, ◌<◌, length};
ghost use Rattle.reader.specs.Files.{words};
ghost use Rattle.reader.specs.Trees.{kind_of, atom_of, first_of, second_of};
ghost use Rattle.derivation_trees.specs.Keys.{decoded, Normal};
ghost use Rattle.derivation_trees.specs.Table.{Table};
ghost use Rattle.derivation_trees.specs.Parts.{Part, part_of};

use reader::Files;
use reader::kinds::Kind;
use reader_equality::keys::part_entry;

// The kind of the tree: 0 for the empty tree.
pub fn kind_of(files: &Files, keys: &[usize], key: usize) -> usize
    requires { Normal (words files.now) (length keys.now) key }
    ensures { result ≡ kind_of (decoded (words files.now) key) }
{
    if 262144 <= key {
        return Kind::Not as usize;
    }
    if key == 0 {
        return 0;
    }
    if key == 1 {
        return Kind::False as usize;
    }
    files.word_at(key - 1, 0)
}

// What tells the tree from others of its kind.
pub fn atom_of(files: &Files, keys: &[usize], key: usize) -> usize
    requires { Normal (words files.now) (length keys.now) key }
    ensures { result ≡ atom_of (decoded (words files.now) key) }
{
    if 262144 <= key {
        return 0;
    }
    if key < 2 {
        return 0;
    }
    files.atom_at(key - 1)
}

// The key of part w.
pub fn part_of(files: &Files, keys: &[usize], key: usize, w: u8) -> usize
    requires { Table (words files.now) keys.now × Normal (words files.now) (length keys.now) key × (0 < w) × (w < 4) }
    ensures { Part (words files.now) (length keys.now) key result (part_of w (decoded (words files.now) key)) }
{
    if 262144 <= key {
        if w == 1 {
            return key - 262144;
        }
        return 0;
    }
    if key < 2 {
        return 0;
    }
    let i = key - 1;
    let k = files.word_at(i, 0);
    part_entry(files, false, keys, i, k, w)
}

// The key of the first part.
pub fn first_of(files: &Files, keys: &[usize], key: usize) -> usize
    requires { Table (words files.now) keys.now × Normal (words files.now) (length keys.now) key }
    ensures { Part (words files.now) (length keys.now) key result (first_of (decoded (words files.now) key)) }
{
    part_of(files, keys, key, 1)
}

// The key of the second part.
pub fn second_of(files: &Files, keys: &[usize], key: usize) -> usize
    requires { Table (words files.now) keys.now × Normal (words files.now) (length keys.now) key }
    ensures { Part (words files.now) (length keys.now) key result (second_of (decoded (words files.now) key)) }
{
    part_of(files, keys, key, 2)
}
