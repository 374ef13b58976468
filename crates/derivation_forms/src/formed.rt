// The form of parts and goal: every sign that the rules show around the letters, and the class of what has no sign.
ghost use Rattle.std.specs.Prelude.{◌≡◌, ◌<◌, length};
ghost use Rattle.reader.specs.Files.{words};
ghost use Rattle.reader.specs.Tests.{every};
ghost use Rattle.reader.specs.Trees.{lower};
ghost use Rattle.reader.specs.Shapes.{have_shapes};
ghost use Rattle.derivation_trees.specs.Keys.{decoded, Normal};
ghost use Rattle.derivation_trees.specs.Table.{Table};
ghost use Rattle.derivation_frames.specs.Frames.{chain_trees};
ghost use Rattle.derivation_bytes.specs.Bytes.{derivation_byte};
ghost use Rattle.derivation_tables.specs.Tables.{shapes_of};
ghost use Rattle.derivation_forms.specs.Formed.{is_formula, parts_formed, goal_shaped};

use derivation_frames::links;
use derivation_tables::tables;
use derivation_trees::{keys, parts, shapes};
use reader::kinds::Class;
use reader::{Files, kinds};

// Are the items of chain c n, with the shapes that the bytes of `code` number, the lowest byte the first's?
fn have_shapes(files: &Files, keys: &[usize], c: usize, n: usize, code: usize) -> bool
    requires { Table (words files.now) keys.now × (c < length keys.now) }
    ensures { result ≡ have_shapes (shapes_of n code) (chain_trees (words files.now) c) }
{
    let mut l = c;
    let mut left = n;
    let mut rest = code;
    while l != 0 {
        if left == 0 {
            return false;
        }
        let link = links::link_at(files, l);
        let x = keys::key_of(files, keys, link.item);
        if !shapes::has_shape(files, keys, x, rest % 256) {
            return false;
        }
        l = link.next;
        left -= 1;
        rest = rest / 256;
    }
    left == 0
}

// Is the tree with this key a formula?
pub fn is_formula(files: &Files, keys: &[usize], key: usize) -> bool
    requires { Normal (words files.now) (length keys.now) key }
    ensures { result ≡ is_formula (decoded (words files.now) key) }
{
    let k = parts::kind_of(files, keys, key);
    kinds::class_of(k) == Class::Formula as u8
}

// Are the items of chain c formulas?
fn are_formulas(files: &Files, keys: &[usize], c: usize) -> bool
    requires { Table (words files.now) keys.now × (c < length keys.now) }
    ensures { result ≡ every is_formula (chain_trees (words files.now) c) }
{
    let mut l = c;
    while l != 0 {
        let link = links::link_at(files, l);
        let x = keys::key_of(files, keys, link.item);
        if !is_formula(files, keys, x) {
            return false;
        }
        l = link.next;
    }
    true
}

// Have the parts of node n, whose chain is c, the number, classes and forms of its rule k, whose byte is `byte`?
pub fn parts_formed(files: &Files, keys: &[usize], n: usize, k: usize, c: usize, byte: u8) -> bool
    requires { Table (words files.now) keys.now × (n < length keys.now) × (k ≡ words files.now n 0) × (c ≡ lower (words files.now) n 1) × (byte ≡ derivation_byte k) }
    ensures { result ≡ parts_formed (words files.now) n }
{
    let count = reader_bytes::parts_of(byte);
    // The number varies: BR2 keeps any number of members.
    if count == 15 {
        return are_formulas(files, keys, c);
    }
    have_shapes(files, keys, c, count, tables::column(k, 0))
}

// Has the goal the form that rule k shows, where it shows one?
pub fn goal_formed(files: &Files, keys: &[usize], goal: usize, k: usize) -> bool
    requires { Normal (words files.now) (length keys.now) goal }
    ensures { result ≡ goal_shaped k (decoded (words files.now) goal) }
{
    let s = tables::column(k, 1);
    if s == 0 {
        return true;
    }
    shapes::has_shape(files, keys, goal, s)
}
