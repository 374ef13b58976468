// The key of a name: its name space, and its characters dealt out in turn to four numbers, mixed.
ghost use Rattle.std.specs.Prelude.{◌≡◌, true, ◌<◌};
ghost use Rattle.reader.specs.Files.{words};
ghost use Rattle.reader_names.specs.NameKeys.{space_key, has_room, dealt, shifted, stirred, absorbed, passed, mixed, name_parts};

use crate::symbols;
use reader::Files;
use reader_characters::{bytes, characters};
use reader_equality::Key;

// The key of no characters yet; name space 0 for no key.
fn space_key(space: usize) -> Key
    ensures { result ≡ space_key space }
{
    Key {
        kind: space,
        atom: 0,
        first: 0,
        second: 0,
        third: 0,
    }
}

// Is c a character, and has the key room for it?
fn has_room(k: Key, c: usize) -> bool
    ensures { result ≡ has_room k c }
{
    if c == 0 {
        return false;
    }
    k.atom < 72057594037927936
}

// The key with character c dealt.
fn dealt(k: Key, c: usize) -> Key
    requires { (has_room k c ≡ true) × (c < 256) }
    ensures { result ≡ dealt k c }
{
    Key {
        kind: k.kind,
        atom: k.first,
        first: k.second,
        second: k.third,
        third: k.atom * 256 + c,
    }
}

// n with x added to its low byte.
fn shifted(n: usize, x: usize) -> usize
    requires { x < 4294967296 }
    ensures { result ≡ shifted n x }
{
    n / 256 * 256 + (n % 256 + x) % 256
}

// A step of the mixing.
fn stirred(h: usize, w: usize) -> usize
    requires { (h < 4294967296) × (w < 4294967296) }
    ensures { result ≡ stirred h w }
{
    (h + w) % 4294967296 * 2654435769 / 65536 % 4294967296
}

// The two halves of n are mixed in.
fn absorbed(h: usize, n: usize) -> usize
    requires { h < 4294967296 }
    ensures { result ≡ absorbed h n }
{
    stirred(stirred(h, n % 4294967296), n / 4294967296 % 4294967296)
}

// The four numbers of a key are.
fn passed(h: usize, k: Key) -> usize
    requires { h < 4294967296 }
    ensures { result ≡ passed h k }
{
    absorbed(
        absorbed(absorbed(absorbed(h, k.atom), k.first), k.second),
        k.third,
    )
}

// The key of the dealt characters k.
pub fn mixed(k: Key) -> Key
    ensures { result ≡ mixed k }
{
    let h = passed(passed(0, k), k);
    Key {
        kind: k.kind % 4 + 4 * h,
        atom: shifted(k.atom, h),
        first: shifted(k.first, h / 256),
        second: shifted(k.second, h / 65536),
        third: shifted(k.third, h / 16777216),
    }
}

// The dealt characters of symbol i. Most records name nothing, and are told at once.
pub fn parts_of(files: &Files, i: usize) -> Key
    ensures { result ≡ name_parts (words files.now) i }
{
    let mut key = space_key(symbols::space_of(files.word_at(i, 0)));
    let first = symbols::name_of(files, i);
    if first == 0 {
        return space_key(0);
    }
    let before = bytes::start(files, first);
    let mut s = characters::next_character(files, before);
    while s.more {
        if !has_room(key, s.value) {
            return space_key(0);
        }
        key = dealt(key, s.value);
        s = characters::next_character(files, s);
    }
    if key.third == 0 {
        return space_key(0);
    }
    key
}
