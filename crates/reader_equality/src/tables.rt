// Tables of numbers that callers lend.
ghost use Rattle.std.specs.Prelude.{◌≡◌, get_or, set};

// Entry k; 0 past the end.
pub fn entry_at(table: &[usize], k: usize) -> usize
    ensures { result ≡ get_or table.now k 0 }
{
    table.get(k).copied().unwrap_or(0)
}

// Makes v entry k; past the end nothing is done.
pub fn store(table: &mut [usize], k: usize, v: usize)
    ensures { table.new ≡ set table.old k v }
{
    // No `get_mut`: of a slice it says nothing of the entries after the write.
    if k < table.len() {
        table[k] = v;
    }
}
