// Symbols: what they name, and in which name space.
ghost use Rattle.std.specs.Prelude.{◌≡◌};
ghost use Rattle.reader.specs.Files.{words};
ghost use Rattle.reader.specs.Names.{name_of, name_space};
ghost use Rattle.reader.specs.Fetched.{RecordIs};

use reader::kinds::Kind;
use reader::{Files, Record};

// The name record that symbol i names; 0 for a record that is no symbol.
pub fn name_of(files: &Files, i: usize) -> usize
    ensures { result ≡ name_of (words files.now) i }
{
    let k = files.word_at(i, 0);
    if k == Kind::GivenType as usize {
        return files.word_at(i, 1);
    }
    if k == Kind::Constant as usize {
        return files.word_at(i, 2);
    }
    if k == Kind::Function as usize {
        return files.word_at(i, 3);
    }
    0
}

// The same of record i, whose words are x.
pub fn name_in(files: &Files, i: usize, x: Record) -> usize
    requires { RecordIs (words files.now) i x }
    ensures { result ≡ name_of (words files.now) i }
{
    if x.kind == Kind::GivenType as usize {
        return x.a;
    }
    if x.kind == Kind::Constant as usize {
        return x.b;
    }
    if x.kind == Kind::Function as usize {
        return x.c;
    }
    0
}

// The name space of a kind, 0 for none.
pub fn space_of(k: usize) -> usize
    ensures { result ≡ name_space k }
{
    if k == Kind::GivenType as usize {
        return 1;
    }
    if k == Kind::Constant as usize {
        return 2;
    }
    if k == Kind::Function as usize {
        return 2;
    }
    0
}
