// The form of parts: every sign that the rules show around the letters, and the class of what has no sign.
ghost use Rattle.std.specs.Prelude.{◌≡◌, replicate};
ghost use Rattle.reader.specs.Files.{words};
ghost use Rattle.reader.specs.Trees.{tree};
ghost use Rattle.reader.specs.Chains.{item_trees};
ghost use Rattle.reader.specs.Shapes.{type, has_shape, have_shapes};
ghost use Rattle.proof_rules.specs.Rules.{Row, row};
ghost use Rattle.proof_bytes.specs.Bytes.{proof_byte};
ghost use Rattle.proof_forms.specs.Shapes.{shape_of, shapes_of, instance_shapes};

use crate::tables;
use proof_references::references_of;
use reader::kinds::{Class, Kind};
use reader::{Files, kinds};

// Has record i the shape with number s?
pub fn has_shape(files: &Files, i: usize, s: usize) -> bool
    ensures { result ≡ has_shape (shape_of s) (tree (words files.now) i) }
{
    let k = reader_types::shapes::tree_kind(files, i);
    if s < 32 {
        return k == s;
    }
    if s < 64 {
        return kinds::class_of(k) as usize == s - 32;
    }
    if k != Kind::Not as usize {
        return false;
    }
    has_shape(files, files.child_at(i, 1), s - 64)
}

// Are the items of chain c n, with the shapes that the bytes of `code` number, the lowest byte the first's?
fn have_shapes(files: &Files, c: usize, n: usize, code: usize) -> bool
    ensures { result ≡ have_shapes (shapes_of n code) (item_trees (words files.now) c) }
{
    let mut l = c;
    let mut left = n;
    let mut bytes = code;
    while l != 0 {
        if left == 0 {
            return false;
        }
        let link = references_of(files, l);
        if !has_shape(files, link.first, bytes % 256) {
            return false;
        }
        l = link.third;
        left -= 1;
        bytes /= 256;
    }
    left == 0
}

// Are the items of chain c n types?
fn are_types(files: &Files, c: usize, n: usize) -> bool
    ensures { result ≡ have_shapes (replicate n type) (item_trees (words files.now) c) }
{
    if c == 0 {
        return n == 0;
    }
    if n == 0 {
        return false;
    }
    let item = files.lower_at(c, 1);
    let rest = files.lower_at(c, 3);
    if !has_shape(files, item, 32 + Class::Type as usize) {
        return false;
    }
    are_types(files, rest, n - 1)
}

// Are the items of chain c a kind 22, a formula, and as many types as the count of the first?
fn instance_shapes(files: &Files, c: usize) -> bool
    ensures { result ≡ instance_shapes (item_trees (words files.now) c) }
{
    let hypothesis = files.lower_at(c, 1);
    let rest = files.lower_at(c, 3);
    let instance = files.lower_at(rest, 1);
    let types = files.lower_at(rest, 3);
    let count = files.atom_at(hypothesis);
    if !has_shape(files, hypothesis, Kind::ForAllTypes as usize) {
        return false;
    }
    if !has_shape(files, instance, 32 + Class::Formula as usize) {
        return false;
    }
    are_types(files, types, count)
}

// Have the parts in chain c the number, classes and forms of rule k, whose byte is `byte`?
pub fn shapes_fit(files: &Files, c: usize, k: usize, byte: u8) -> bool
    requires { byte ≡ proof_byte k }
    ensures { result ≡ have_shapes (row k (item_trees (words files.now) c)).shapes (item_trees (words files.now) c) }
{
    let count = reader_bytes::parts_of(byte);
    // The number varies: 45's first part counts its types.
    if count == 15 {
        return instance_shapes(files, c);
    }
    have_shapes(files, c, count, tables::shape_code(k))
}
