// The table of records: classes of kinds, roles of words.
ghost use Rattle.std.specs.Prelude.{◌≡◌};
ghost use Rattle.reader.specs.Files.{words};
ghost use Rattle.reader.specs.KindLaws.{unpacked};
ghost use Rattle.reader.specs.Kinds.{layout, class, role, kind_at, class_at, role_at, is_rule, is_kind, is_number, is_symbol};

use crate::Files;
use crate::tests::is_between;

// The kinds of file. A function takes the number, `mode`, and no `Mode`, as it answers for any number.
#[derive(Clone, Copy, PartialEq, Eq)]
pub enum Mode {
    Obligation,
    Proof,
    Derivation,
}

// The kinds of records, as the table numbers them.
#[derive(Clone, Copy, PartialEq, Eq)]
pub enum Kind {
    Link = 1,
    Name,
    GivenType,
    SetType,
    PairType,
    TypeVariable,
    Constant,
    Function,
    BoundVariable,
    Pair,
    Product,
    Powerset,
    Application,
    False,
    True,
    And,
    Implies,
    Not,
    ForAll,
    Equal,
    Member,
    ForAllTypes,
    Choice,
}

// The classes of records.
#[derive(Clone, Copy, PartialEq, Eq)]
pub enum Class {
    None,
    Link,
    Name,
    Type,
    Term,
    Formula,
    Function,
    ForAllTypes,
}

// The roles of words: nothing, numbers, references that are no part of the record's tree, and, from `Item` on, references to its parts.
#[derive(Clone, Copy, PartialEq, Eq)]
pub enum Role {
    Nothing,
    Bytes,
    To3,
    To4,
    To63,
    From1To4,
    Name,
    NextName,
    NodeChain,
    Signature,
    Item,
    NextLink,
    Type,
    Term,
    Formula,
    Function,
    Types,
    Arguments,
}

// The row of kind k, two hexadecimal digits each for its class and the roles of its words 1 to 3. A `match`, as the compiler would write a `const` array to the
// stack at each use. Where several of a record's columns are wanted, its row is looked up once. No plainer with `Kind`: a `match` takes it only from a function that lists all its numbers again.
pub fn row_of(k: usize) -> u32
    ensures { unpacked result ≡ layout k }
{
    match k {
        1 => 0x01_0a_00_0b, // link: any record, the next link
        2 => 0x02_01_01_07, // name: bytes, bytes, the next name record
        3 => 0x03_06_00_00, // given type: name
        4 => 0x03_0c_00_00, // set type: type
        5 => 0x03_0c_0c_00, // pair type: type, type
        6 => 0x03_02_00_00, // type variable: 0 to 3
        7 => 0x04_0c_06_00, // constant: type, name
        8 => 0x06_09_03_06, // function: chain of types, 0 to 4, name
        9 => 0x04_04_0c_00, // bound variable: 0 to 63, type
        10 => 0x04_0d_0d_0c, // pair: term, term, type
        11 => 0x04_0d_0d_0c, // product: term, term, type
        12 => 0x04_0d_0c_00, // powerset: term, type
        13 => 0x04_0f_10_11, // application: function, chain of types, chain of terms
        14 => 0x05_00_00_00, // ⊥
        15 => 0x05_00_00_00, // ⊤
        16 => 0x05_0e_0e_00, // ∧: formula, formula
        17 => 0x05_0e_0e_00, // ⇒: formula, formula
        18 => 0x05_0e_00_00, // ¬: formula
        19 => 0x05_0c_0e_00, // ∀: type, formula
        20 => 0x05_0d_0d_00, // =: term, term
        21 => 0x05_0d_0d_00, // ∈: term, term
        22 => 0x07_05_0e_00, // for all types: 1 to 4, formula
        23 => 0x04_0d_0c_00, // choice: term, type
        _ => if 32 <= k { 0x00_08_08_00 } else { 0 }, // rule node: chain of parts, chain of premises
    }
}

// The class that a row has.
pub fn class_in(row: u32) -> u8
    ensures { result ≡ (unpacked row).class }
{
    (row / 0x1000000) as u8
}

// The role of word 1 that a row has.
pub fn first_in(row: u32) -> u8
    ensures { result ≡ (unpacked row).first }
{
    (row / 0x10000 % 0x100) as u8
}

// The role of word 2.
pub fn second_in(row: u32) -> u8
    ensures { result ≡ (unpacked row).second }
{
    (row / 0x100 % 0x100) as u8
}

// The role of word 3.
pub fn third_in(row: u32) -> u8
    ensures { result ≡ (unpacked row).third }
{
    (row % 0x100) as u8
}

// The class of a record of kind k.
pub fn class_of(k: usize) -> u8
    ensures { result ≡ class k }
{
    class_in(row_of(k))
}

// The role of word w of a record of kind k.
pub fn role_of(k: usize, w: u8) -> u8
    ensures { result ≡ role k w }
{
    if w == 1 {
        return first_in(row_of(k));
    }
    if w == 2 {
        return second_in(row_of(k));
    }
    if w == 3 {
        return third_in(row_of(k));
    }
    0
}

// Is kind k a rule of a file of kind `mode`?
pub fn is_rule(mode: u8, k: usize) -> bool
    ensures { result ≡ is_rule mode k }
{
    if mode == Mode::Proof as u8 {
        return is_between(32, 46, k);
    }
    if mode == Mode::Derivation as u8 {
        return is_between(64, 80, k);
    }
    false
}

// Is k a kind of a file of kind `mode`?
pub fn is_kind(mode: u8, k: usize) -> bool
    ensures { result ≡ is_kind mode k }
{
    if k < 24 {
        return 0 < k;
    }
    is_rule(mode, k)
}

// Is k the kind of a symbol?
pub fn is_symbol(k: usize) -> bool
    ensures { result ≡ is_symbol k }
{
    if k == Kind::GivenType as usize {
        return true;
    }
    if k == Kind::Constant as usize {
        return true;
    }
    k == Kind::Function as usize
}

// Is r the role of a number?
pub fn is_number(r: u8) -> bool
    ensures { result ≡ is_number r }
{
    if r < Role::To3 as u8 {
        return false;
    }
    r < Role::Name as u8
}

impl Files<'_> {
    // The kind of record i.
    pub fn kind_at(&self, i: usize) -> usize
        ensures { result ≡ kind_at (words self.now) i }
    {
        self.word_at(i, 0)
    }

    // The class of record i.
    pub fn class_at(&self, i: usize) -> u8
        ensures { result ≡ class_at (words self.now) i }
    {
        class_of(self.kind_at(i))
    }

    // The role of word w of record i.
    pub fn role_at(&self, i: usize, w: u8) -> u8
        ensures { result ≡ role_at (words self.now) i w }
    {
        role_of(self.kind_at(i), w)
    }
}
