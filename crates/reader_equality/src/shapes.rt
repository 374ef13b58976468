// The shape of a record: what its words are to its tree. It is looked up once, by the record's kind, and gives the record's atom and its parts.
ghost use Rattle.std.specs.Prelude.{◌≡◌, ◌/◌};
ghost use Rattle.reader.specs.Tests.{if_eq, if_lt, if_true};
ghost use Rattle.reader_equality.specs.Keys.{atom_in};
ghost use Rattle.reader_equality.specs.Shapes.{shape_of, PartsAre};

use crate::Parts;
use reader::Record;

// No plainer with `Kind`: a `match` takes it only from a function that lists all its numbers again.
// The shape of kind k, a bit for each: words 3 to 1 are parts; the record is a symbol, word 1 is a number; words 3 to 1 are parts that are no types.
pub fn shape_of(k: usize) -> u32
    ensures { result ≡ shape_of k }
{
    match k {
        1 => 0b101_00_101, // link
        2 => 0b000_00_000, // name
        3 => 0b000_10_000, // given type
        4 => 0b001_00_000, // set type
        5 => 0b011_00_000, // pair type
        6 => 0b000_01_000, // type variable
        7 => 0b001_10_000, // constant
        8 => 0b000_10_000, // function
        9 => 0b010_01_000, // bound variable
        10 => 0b111_00_011, // pair
        11 => 0b111_00_011, // product
        12 => 0b011_00_001, // powerset
        13 => 0b111_00_101, // application
        14 => 0b000_00_000, // ⊥
        15 => 0b000_00_000, // ⊤
        16 => 0b011_00_011, // ∧
        17 => 0b011_00_011, // ⇒
        18 => 0b001_00_001, // ¬
        19 => 0b011_00_010, // ∀
        20 => 0b011_00_011, // =
        21 => 0b011_00_011, // ∈
        22 => 0b010_01_010, // for all types
        23 => 0b011_00_001, // choice
        _ => 0, // rule node
    }
}

// Number a where a bit is set, else 0. No branch on a shape: the look-up would become jumps.
fn when(bit: u32, a: usize) -> usize
    ensures { result ≡ if_eq bit 1 a 0 }
{
    if bit == 1 { a } else { 0 }
}

// Word a of record i where it refers to a smaller record, else 0.
fn lower(i: usize, a: usize) -> usize
    ensures { result ≡ if_lt a i a 0 }
{
    if a < i { a } else { 0 }
}

// The bits for the parts, the lowest for word 1. Where types do not count, a type or a chain of types is none.
fn parts_bits(types: bool, shape: u32) -> u32
    ensures { result ≡ if_true types (shape / 32) shape }
{
    if types { shape / 32 } else { shape }
}

// What tells record i, whose words are x, from others of its kind.
pub fn atom_by(shape: u32, i: usize, x: Record) -> usize
    requires { shape ≡ shape_of x.kind }
    ensures { result ≡ atom_in i x }
{
    if shape / 16 % 2 == 1 {
        return i;
    }
    when(shape / 8 % 2, x.a)
}

// The parts of record i, whose words are x, by its shape.
pub fn parts_by(types: bool, shape: u32, i: usize, x: Record) -> Parts
    requires { shape ≡ shape_of x.kind }
    ensures { PartsAre types i x result }
{
    let bits = parts_bits(types, shape);
    Parts {
        first: when(bits % 2, lower(i, x.a)),
        second: when(bits / 2 % 2, lower(i, x.b)),
        third: when(bits / 4 % 2, lower(i, x.c)),
    }
}

// The parts of record i, whose words are x.
pub fn parts_in(types: bool, i: usize, x: Record) -> Parts
    ensures { PartsAre types i x result }
{
    parts_by(types, shape_of(x.kind), i, x)
}
