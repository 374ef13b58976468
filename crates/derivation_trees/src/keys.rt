// Keys of records and of negations.
ghost use Rattle.std.specs.Prelude.{◌≡◌, ◌+◌, ◌<◌, length};
ghost use Rattle.reader.specs.Files.{words};
ghost use Rattle.reader.specs.Trees.{¬ᵗ◌};
ghost use Rattle.derivation_rules.specs.Erase.{bare_tree};
ghost use Rattle.derivation_trees.specs.Keys.{negations_of, decoded, Normal, Stands};
ghost use Rattle.derivation_trees.specs.Table.{KeyOf, Table};

use reader::Files;

// The key of record i.
pub fn key_of(files: &Files, keys: &[usize], i: usize) -> usize
    requires { Table (words files.now) keys.now × (i < length keys.now) }
    ensures { KeyOf (words files.now) (length keys.now) result (bare_tree (words files.now) i) }
{
    keys[i]
}

// The key of ¬ before the tree with this key.
pub fn negated(files: &Files, keys: &[usize], key: usize) -> usize
    requires { Normal (words files.now) (length keys.now) key × (negations_of key < 262143) }
    ensures { Stands (words files.now) (length keys.now) result (¬ᵗ (decoded (words files.now) key)) × (negations_of result ≡ negations_of key + 1) }
{
    key + 262144
}
