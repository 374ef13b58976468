// The order of a record, a number up to 255 that the table has beside its reach: the largest of its parts' orders, and one more where two parts have that.
// A recursion into all parts but one of the largest order, which a loop takes, is then no deeper than the order.
ghost use Rattle.std.specs.Prelude.{false, ◌≡◌, ◌<◌, ◌≤◌, ◌/◌, length, get_or};
ghost use Rattle.reader.specs.Files.{words};
ghost use Rattle.reader.specs.Fetched.{RecordIs};
ghost use Rattle.reader_equality.specs.Shapes.{PartsAre};
ghost use Rattle.derivation_rules.specs.Erase.{bare_tree};
ghost use Rattle.derivation_closedness.specs.Orders.{shared, order, order_above};
ghost use Rattle.derivation_closedness.specs.Reaches.{Reached};

use reader::kinds::Kind;
use reader::{Files, Record};
use reader_closedness::reaches::larger;
use reader_equality::Parts;

// The order that entry i of the table has.
fn entry_order(reaches: &[u16], i: usize) -> usize
    requires { i < length reaches.now }
    ensures { result ≡ get_or reaches.now i 0 / 256 }
{
    (reaches[i] / 256) as usize
}

// Have two of three parts the largest order? The orders are a, b and c.
fn is_shared(most: usize, a: usize, b: usize, c: usize) -> bool
    ensures { result ≡ shared most a b c }
{
    if a == most {
        if b == most {
            return true;
        }
        return c == most;
    }
    if b != most {
        return false;
    }
    c == most
}

// The order of a node whose parts have the orders a, b and c.
fn order_above(a: usize, b: usize, c: usize) -> usize
    ensures { result ≡ order_above a b c }
{
    let most = larger(a, larger(b, c));
    if 255 <= most {
        return 255;
    }
    if is_shared(most, a, b, c) {
        return most + 1;
    }
    most
}

// The order of record i, whose words are x, by those of its parts, which the table has. Kind 22 has that of its formula, even of none.
pub fn order_of(files: &Files, reaches: &[u16], i: usize, x: Record, parts: Parts) -> usize
    requires { (0 < i) × (i ≤ length reaches.now) × RecordIs (words files.now) i x × PartsAre false i x parts × Reached (words files.now) reaches.now i }
    ensures { result ≡ order (bare_tree (words files.now) i) }
{
    let a = entry_order(reaches, parts.first);
    let b = entry_order(reaches, parts.second);
    let c = entry_order(reaches, parts.third);
    if x.kind == Kind::ForAllTypes as usize {
        return b;
    }
    order_above(a, b, c)
}
