// The form of parts and goals: every sign that the rules show around the letters, and the class of what has no sign.
ghost use Rattle.std.specs.Prelude.{◌≡◌, length};
ghost use Rattle.reader.specs.Files.{words};
ghost use Rattle.reader.specs.Shapes.{has_shape};
ghost use Rattle.derivation_trees.specs.Keys.{decoded, Normal};
ghost use Rattle.derivation_trees.specs.Shapes.{shape_of};

use crate::parts;
use reader::{Files, kinds};

// Has the tree with this key the shape with number s?
pub fn has_shape(files: &Files, keys: &[usize], key: usize, s: usize) -> bool
    requires { Normal (words files.now) (length keys.now) key }
    ensures { result ≡ has_shape (shape_of s) (decoded (words files.now) key) }
{
    if s < 32 {
        return parts::kind_of(files, keys, key) == s;
    }
    if s < 64 {
        let k = parts::kind_of(files, keys, key);
        return kinds::class_of(k) as usize == s - 32;
    }
    if key < 262144 {
        return false;
    }
    parts::kind_of(files, keys, key - 262144) == s - 64
}
