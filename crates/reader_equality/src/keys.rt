// The key of a record, from a table of the smaller records; where the search for a key starts and how it goes on. Types may be left out.
ghost use Rattle.std.specs.Prelude.{◌≡◌, ◌<◌, ◌≤◌, length};
ghost use Rattle.reader.specs.Files.{words};
ghost use Rattle.reader_equality.specs.Keys.{is_part, part_at, part_entry, atom_in, part_in, key_in, bucket_of, side_of, turned, same_key};
ghost use Rattle.reader_equality.specs.Shapes.{shape_of};

use crate::{Key, shapes};
use reader::kinds::Role;
use reader::{Files, Record, kinds};

// What tells record i, whose words are x, from others of its kind.
pub fn atom_of(i: usize, x: Record) -> usize
    ensures { result ≡ atom_in i x }
{
    shapes::atom_by(shapes::shape_of(x.kind), i, x)
}

// Is a word of this role a part of the tree? Where types do not count, a type or a chain of types is none.
fn is_part(types: bool, role: u8) -> bool
    ensures { result ≡ is_part types role }
{
    if role < Role::Item as u8 {
        return false;
    }
    if types {
        return true;
    }
    if role == Role::Type as u8 {
        return false;
    }
    role != Role::Types as u8
}

// The part that word w of record i, whose kind is k, refers to; 0 for none.
pub fn part_at(files: &Files, types: bool, i: usize, k: usize, w: u8) -> usize
    requires { k ≡ words files.now i 0 }
    ensures { result ≡ part_at (words files.now) types i w }
{
    if !is_part(types, kinds::role_of(k, w)) {
        return 0;
    }
    files.lower_at(i, w)
}

// What the table says of that part.
#[tactic(auto, using(crate::specs::Keys::part_at_table, crate::specs::Keys::entry_is))]
pub fn part_entry(files: &Files, types: bool, table: &[usize], i: usize, k: usize, w: u8) -> usize
    requires { (k ≡ words files.now i 0) × (0 < i) × (i ≤ length table.now) }
    ensures { result ≡ part_entry (words files.now) types table.now i w }
{
    table[part_at(files, types, i, k, w)]
}

// The part that word w of record i, whose words are x, refers to; 0 for none.
pub fn part_of(types: bool, i: usize, x: Record, w: u8) -> usize
    ensures { result ≡ part_in types i x w }
{
    if !is_part(types, kinds::role_of(x.kind, w)) {
        return 0;
    }
    let a = x.word_in(w);
    if a < i { a } else { 0 }
}

// The key of record i, whose words are x, by its shape.
pub fn key_in(types: bool, table: &[usize], shape: u32, i: usize, x: Record) -> Key
    requires { (shape ≡ shape_of x.kind) × (0 < i) × (i ≤ length table.now) }
    ensures { result ≡ key_in types table.now i x }
{
    let parts = shapes::parts_by(types, shape, i, x);
    Key {
        kind: x.kind,
        atom: shapes::atom_by(shape, i, x),
        first: table[parts.first],
        second: table[parts.second],
        third: table[parts.third],
    }
}

// Has record i, whose words are x, this key? Where it has the kind, it has the shape.
pub fn has_key(types: bool, table: &[usize], shape: u32, i: usize, x: Record, key: Key) -> bool
    requires { (shape ≡ shape_of key.kind) × (0 < i) × (i ≤ length table.now) }
    ensures { result ≡ same_key (key_in types table.now i x) key }
{
    x.kind == key.kind && key_in(types, table, shape, i, x) == key
}

// The slot at which the search for a key starts.
pub fn bucket_of(k: Key) -> usize
    ensures { result ≡ bucket_of k }
{
    (k.kind % 4096 * 1031
        + k.atom % 4096 * 2777
        + k.first % 4096 * 797
        + k.second % 4096 * 3061
        + k.third % 4096 * 397)
        % 4096
}

// The side on which the search for a key goes on.
pub fn side_of(k: Key) -> usize
    ensures { result ≡ side_of k }
{
    k.kind % 2
}

// The key with which it goes on.
pub fn turned(k: Key) -> Key
    ensures { result ≡ turned k }
{
    Key {
        kind: k.atom,
        atom: k.first,
        first: k.second,
        second: k.third,
        third: k.kind / 2,
    }
}
