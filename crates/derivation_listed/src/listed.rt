// The positions of a list of keys in the slots of a search tree, so that a key is found without a search through the list.
ghost use Rattle.std.specs.Prelude.{◌≡◌, ◌+◌, ◌*◌, ◌<◌, ◌≤◌, length};
ghost use Rattle.reader_equality.specs.Tables.{Zeros};
ghost use Rattle.reader_slots.specs.Slots.{Placed, Ended};
ghost use Rattle.derivation_listed.specs.Listed.{spread, listed_key, is_listed, Indexed, Space};

use reader_equality::Key;
use reader_slots::slots;

// A number as a key of the search tree.
fn spread(k: usize) -> Key
    ensures { result ≡ spread k }
{
    Key {
        kind: k % 512,
        atom: k / 512 % 512,
        first: k / 512 / 512,
        second: 0,
        third: 0,
    }
}

// The slot at which the search for k among the positions below i ends: one that has a position with k, or a free one.
fn slot_of(listed: &[usize], slots: &[u32], k: usize, i: usize) -> usize
    requires { (i ≤ length listed.now) × (4096 + 2 * i ≤ length slots.now) × Placed (listed_key listed.now) slots.now i }
    ensures { Ended (listed_key listed.now) slots.now (spread k) i result }
{
    let mut rest = spread(k);
    let mut slot = reader_equality::keys::bucket_of(rest);
    let mut j = slots::record_in(slots, slot);
    while j != 0 {
        if listed[j] == k {
            return slot;
        }
        slot = slots::slot_under(j, rest);
        rest = reader_equality::keys::turned(rest);
        j = slots::record_in(slots, slot);
    }
    slot
}

// Puts position i in, where no position with its key is there.
fn place(listed: &[usize], slots: &mut [u32], i: usize)
    requires { (0 < i) × Space listed.now slots.old i × Indexed listed.now slots.old i }
    ensures { Indexed listed.now slots.new (i + 1) }
{
    let slot = slot_of(listed, slots, listed[i], i);
    let j = slots::record_in(slots, slot);
    if j != 0 {
        return;
    }
    slots[slot] = i as u32;
}

// Puts positions 1 to last in.
pub fn place_all(listed: &[usize], slots: &mut [u32], last: usize)
    requires { Zeros slots.old × Space listed.now slots.old last }
    ensures { Indexed listed.now slots.new (last + 1) }
{
    for i in 1..=last {
        place(listed, slots, i);
    }
}

// Does one of the positions 1 to n have k?
pub fn is_listed(listed: &[usize], slots: &[u32], n: usize, k: usize) -> bool
    requires { Space listed.now slots.now n × Indexed listed.now slots.now (n + 1) }
    ensures { result ≡ is_listed listed.now n 1 k }
{
    let slot = slot_of(listed, slots, k, n + 1);
    slots::record_in(slots, slot) != 0
}
