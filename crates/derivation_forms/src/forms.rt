// The key of what a form names of a node: its goal, a part, a part of these, or a negation.
ghost use Rattle.std.specs.Prelude.{◌≡◌, length};
ghost use Rattle.reader.specs.Files.{words};
ghost use Rattle.reader.specs.Trees.{lower};
ghost use Rattle.derivation_rules.specs.Erase.{bare_parts};
ghost use Rattle.derivation_trees.specs.Keys.{decoded};
ghost use Rattle.derivation_tables.specs.Tables.{source_tree, form_tree};
ghost use Rattle.derivation_forms.specs.Forms.{Given, Formed};

use derivation_trees::{keys, parts};
use reader::Files;
use reader_chains::chains;

// The key of source w: 1 the goal, from 2 on the parts of node n, whose chain is c.
fn source_key(files: &Files, keys: &[usize], goal: usize, n: usize, c: usize, w: usize) -> usize
    requires { Given (words files.now) keys.now goal n × (c ≡ lower (words files.now) n 1) }
    ensures { Formed (words files.now) (length keys.now) goal 0 result (source_tree (bare_parts (words files.now) n) (decoded (words files.now) goal) w) }
{
    if w < 2 {
        return goal;
    }
    let part = chains::item_at(files, c, w - 2);
    keys::key_of(files, keys, part)
}

// The key of what the form names of node n, whose chain of parts is c.
pub fn form_in(files: &Files, keys: &[usize], goal: usize, n: usize, c: usize, form: usize) -> usize
    requires { Given (words files.now) keys.now goal n × (c ≡ lower (words files.now) n 1) }
    ensures { Formed (words files.now) (length keys.now) goal 1 result (form_tree (bare_parts (words files.now) n) (decoded (words files.now) goal) form) }
{
    let x = source_key(files, keys, goal, n, c, form / 4);
    if form % 4 == 0 {
        return x;
    }
    if form % 4 == 1 {
        return parts::first_of(files, keys, x);
    }
    if form % 4 == 2 {
        return parts::second_of(files, keys, x);
    }
    keys::negated(files, keys, x)
}

// The key of what the form names.
pub fn form_key(files: &Files, keys: &[usize], goal: usize, n: usize, form: usize) -> usize
    requires { Given (words files.now) keys.now goal n }
    ensures { Formed (words files.now) (length keys.now) goal 1 result (form_tree (bare_parts (words files.now) n) (decoded (words files.now) goal) form) }
{
    let c = files.lower_at(n, 1);
    form_in(files, keys, goal, n, c, form)
}
