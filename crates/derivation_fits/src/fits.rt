// Refusal 15: letters that stand for one thing are equal, replacement, closedness.
// A rule has no name but its number.
ghost use Rattle.std.specs.Prelude.{◌≡◌, ◌<◌, length};
ghost use Rattle.reader.specs.Files.{words};
ghost use Rattle.reader.specs.Tests.{every};
ghost use Rattle.derivation_rules.specs.Erase.{bare_parts};
ghost use Rattle.derivation_trees.specs.Keys.{decoded};
ghost use Rattle.derivation_known.specs.Known.{Known};
ghost use Rattle.derivation_paths.specs.Tables.{Tables};
ghost use Rattle.derivation_frames.specs.Frames.{chain_trees};
ghost use Rattle.derivation_forms.specs.Forms.{Given};
ghost use Rattle.derivation_fits.specs.Fits.{is_closed, equal_forms, replaced_forms, equality_fits, letters_fit, node_fits};

use derivation_closedness::closed;
use derivation_forms::forms;
use derivation_frames::links;
use derivation_replacement::replace;
use derivation_tables::tables;
use derivation_trees::keys;
use reader::Files;

// Are the items of chain c closed?
fn are_closed(files: &Files, keys: &[usize], reaches: &[u16], c: usize) -> bool
    requires { Tables (words files.now) keys.now reaches.now × (c < length keys.now) }
    ensures { result ≡ every is_closed (chain_trees (words files.now) c) }
{
    let mut l = c;
    while l != 0 {
        let link = links::link_at(files, l);
        let x = keys::key_of(files, keys, link.item);
        if !closed::is_below(files, keys, reaches, x, 0) {
            return false;
        }
        l = link.next;
    }
    true
}

// Is what forms a and b name of node n equal?
fn forms_equal(files: &Files, keys: &[usize], goal: usize, n: usize, a: usize, b: usize) -> bool
    requires { Given (words files.now) keys.now goal n }
    ensures { result ≡ equal_forms (bare_parts (words files.now) n) (decoded (words files.now) goal) a b }
{
    let u = forms::form_key(files, keys, goal, n, a);
    let v = forms::form_key(files, keys, goal, n, b);
    u == v
}

// Is what form x names of node n what form j names, with what form t names in place of index 0?
fn forms_replaced(
    files: &Files,
    keys: &[usize],
    reaches: &[u16],
    known: &mut [usize],
    goal: usize,
    n: usize,
    x: usize,
    t: usize,
    j: usize,
) -> bool
    requires { Given (words files.now) keys.now goal n × Tables (words files.now) keys.now reaches.now × Known (words files.now) known.old }
    ensures { (result ≡ replaced_forms (bare_parts (words files.now) n) (decoded (words files.now) goal) x t j) × Known (words files.now) known.new }
{
    let u = forms::form_key(files, keys, goal, n, x);
    let v = forms::form_key(files, keys, goal, n, t);
    let w = forms::form_key(files, keys, goal, n, j);
    replace::is_replaced(files, keys, reaches, known, u, v, w)
}

// R9: is B open in index 0 at most, are the other parts closed, is the third B(E) and the goal B(F)?
fn equality_fits(
    files: &Files,
    keys: &[usize],
    reaches: &[u16],
    known: &mut [usize],
    goal: usize,
    n: usize,
) -> bool
    requires { Given (words files.now) keys.now goal n × Tables (words files.now) keys.now reaches.now × Known (words files.now) known.old }
    ensures { (result ≡ equality_fits (bare_parts (words files.now) n) (decoded (words files.now) goal)) × Known (words files.now) known.new }
{
    let c = files.lower_at(n, 1);
    let rest = files.lower_at(c, 3);
    let body = forms::form_key(files, keys, goal, n, 8);
    if !closed::is_below(files, keys, reaches, body, 1) {
        return false;
    }
    if !are_closed(files, keys, reaches, rest) {
        return false;
    }
    if !forms_replaced(files, keys, reaches, known, goal, n, 16, 13, 8) {
        return false;
    }
    forms_replaced(files, keys, reaches, known, goal, n, 4, 14, 8)
}

// Do the letters of rule k fit at node n: two forms equal, or one another with a third in it?
fn letters_fit(
    files: &Files,
    keys: &[usize],
    reaches: &[u16],
    known: &mut [usize],
    goal: usize,
    n: usize,
    k: usize,
) -> bool
    requires { Given (words files.now) keys.now goal n × Tables (words files.now) keys.now reaches.now × Known (words files.now) known.old }
    ensures { (result ≡ letters_fit k (bare_parts (words files.now) n) (decoded (words files.now) goal)) × Known (words files.now) known.new }
{
    let a = tables::column(k, 8);
    if a != 0 {
        let b = tables::column(k, 9);
        return forms_equal(files, keys, goal, n, a, b);
    }
    let x = tables::column(k, 10);
    if x == 0 {
        return true;
    }
    let t = tables::column(k, 11);
    let j = tables::column(k, 12);
    forms_replaced(files, keys, reaches, known, goal, n, x, t, j)
}

// Do the parts of node n fit, as its rule asks?
pub fn fits(
    files: &Files,
    keys: &[usize],
    reaches: &[u16],
    known: &mut [usize],
    goal: usize,
    n: usize,
) -> bool
    requires { Given (words files.now) keys.now goal n × Tables (words files.now) keys.now reaches.now × Known (words files.now) known.old }
    ensures { (result ≡ node_fits (words files.now) (decoded (words files.now) goal) n) × Known (words files.now) known.new }
{
    let k = files.word_at(n, 0);
    if k < 64 {
        return false;
    }
    if 80 < k {
        return false;
    }
    if k == 79 {
        return equality_fits(files, keys, reaches, known, goal, n);
    }
    let c = files.lower_at(n, 1);
    if !are_closed(files, keys, reaches, c) {
        return false;
    }
    letters_fit(files, keys, reaches, known, goal, n, k)
}
