// Bytes put behind what stands in a lent area.
ghost use Rattle.std.specs.Prelude.{◌+◌, ◌≤◌, length};
ghost use Rattle.programs_text.specs.Text.{Appended};

// Copies bytes into the area from place `at` on; where they end.
pub fn append(area: &mut [u8], at: usize, text: &[u8]) -> usize
    requires { at + length text.now ≤ length area.old }
    ensures { Appended area.old at text.now area.new result }
{
    let end = at + text.len();
    area[at..end].copy_from_slice(text);
    end
}
