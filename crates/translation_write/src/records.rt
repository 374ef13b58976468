// Words and records at their place in the buffer; every byte outside of them stays.
ghost use Rattle.std.specs.Prelude.{◌≡◌, ◌+◌, ◌*◌, ◌≤◌, length, take, drop};
ghost use Rattle.translation_rules.specs.Bytes.{bytes4, bytes16};
ghost use Rattle.translation_write.specs.Put.{put};

// The word v from byte `at` on, low byte first.
fn put_word(buffer: &mut [u8], at: usize, v: usize)
    requires { at + 4 ≤ length buffer.old }
    ensures { buffer.new ≡ put buffer.old at (bytes4 v) }
{
    buffer[at] = (v % 256) as u8;
    buffer[at + 1] = (v / 256 % 256) as u8;
    buffer[at + 2] = (v / 65536 % 256) as u8;
    buffer[at + 3] = (v / 16777216 % 256) as u8;
}

// Record r: kind k, words a, b, c.
pub fn put_record(buffer: &mut [u8], r: usize, k: usize, a: usize, b: usize, c: usize)
    requires { 16 * r + 16 ≤ length buffer.old }
    ensures { buffer.new ≡ put buffer.old (16 * r) (bytes16 k a b c) }
{
    let at = 16 * r;
    put_word(buffer, at, k);
    put_word(buffer, at + 4, a);
    put_word(buffer, at + 8, b);
    put_word(buffer, at + 12, c);
}

// Record r of a file, byte for byte, at the same place.
pub fn copy_record(file: &[u8], buffer: &mut [u8], r: usize)
    requires { (16 * r + 16 ≤ length file.now) × (16 * r + 16 ≤ length buffer.old) }
    ensures { buffer.new ≡ put buffer.old (16 * r) (take 16 (drop (16 * r) file.now)) }
{
    let at = 16 * r;
    buffer[at..at + 16].copy_from_slice(&file[at..at + 16]);
}
