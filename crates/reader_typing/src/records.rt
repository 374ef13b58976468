// Typing of records, by kind. No plainer with `Kind`: a `match` takes it only from a function that lists all its numbers again.
ghost use Rattle.std.specs.Prelude.{◌≡◌, length};
ghost use Rattle.reader.specs.Files.{words};
ghost use Rattle.reader_equality.specs.Least.{Numbered};
ghost use Rattle.reader_equality.specs.Tables.{Zeros};
ghost use Rattle.reader.specs.Typing.{is_typed};

use crate::applications;
use reader::Files;
use reader_types::types;

// Is record i typed as its kind k asks? Refusal 10 where it is not. The table `seen` is scratch, zeros before and zeros again.
pub fn is_typed(files: &Files, numbers: &[usize], seen: &mut [usize], i: usize, k: usize) -> bool
    requires { (k ≡ words files.now i 0) × Numbered (words files.now) numbers.now (length numbers.now) × Zeros seen.old }
    ensures { (result ≡ is_typed (words files.now) i) × Zeros seen.new }
{
    match k {
        7 => types::constant_typed(files, i),
        8 => applications::function_typed(files, seen, i),
        10 => types::pair_typed(files, numbers, i),
        11 => types::product_typed(files, numbers, i),
        12 => types::powerset_typed(files, numbers, i),
        13 => applications::application_typed(files, numbers, seen, i),
        19 => types::for_all_typed(files, numbers, i),
        20 => types::equal_typed(files, numbers, i),
        21 => types::member_typed(files, numbers, i),
        23 => types::choice_typed(files, numbers, i),
        _ => true,
    }
}
