// The keys of the members that rules name.
ghost use Rattle.std.specs.Prelude.{◌≡◌, ◌<◌, length};
ghost use Rattle.reader.specs.Files.{words};
ghost use Rattle.reader.specs.Chains.{item_trees};
ghost use Rattle.proof_members.specs.Keys.{Stands};
ghost use Rattle.proof_members.specs.Makers.{Table};
ghost use Rattle.proof_rows.specs.Forms.{left_path, right_path, form_tree};

use crate::paths::path_record;
use proof_members::keys;
use reader::Files;

// The paths of ¬(t=u)'s two terms, by its form.
fn left_path(form: u8) -> u8
    ensures { result ≡ left_path form }
{
    if form == 3 { 8 } else { 16 }
}

fn right_path(form: u8) -> u8
    ensures { result ≡ right_path form }
{
    if form == 3 { 4 } else { 32 }
}

// The key of what the form says of the parts in chain c.
pub fn form_key(files: &Files, numbers: &[usize], c: usize, form: u8) -> usize
    requires { Table (words files.now) numbers.now × (c < length numbers.now) }
    ensures { Stands (words files.now) (length numbers.now) result (form_tree (item_trees (words files.now) c) form) }
{
    if form < 8 {
        let t = path_record(files, c, left_path(form));
        let u = path_record(files, c, right_path(form));
        return keys::unequal_key(files, numbers, t, u);
    }
    let x = path_record(files, c, (form - 8) / 2);
    if form % 2 == 1 {
        return keys::negated_key(files, numbers, x);
    }
    keys::key_of(files, numbers, x)
}
