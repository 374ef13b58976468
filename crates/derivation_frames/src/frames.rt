// The words of a frame.
ghost use Rattle.std.specs.Prelude.{◌≡◌, ◌+◌, ◌*◌, ◌<◌, length};
ghost use Rattle.derivation_frames.specs.Frames.{start_at, goal_at, entry_at, count_at, Written};

// The depth where the members at depth d were last set.
pub fn start_at(frames: &[usize], d: usize) -> usize
    requires { 4 * d + 3 < length frames.now }
    ensures { result ≡ start_at frames.now d }
{
    frames[4 * d]
}

// The key of the goal at depth d.
pub fn goal_at(frames: &[usize], d: usize) -> usize
    requires { 4 * d + 3 < length frames.now }
    ensures { result ≡ goal_at frames.now d }
{
    frames[4 * d + 1]
}

// The chain of the members, where they were set at depth d, and else the key of the member added there and one, or 0.
pub fn entry_at(frames: &[usize], d: usize) -> usize
    requires { 4 * d + 3 < length frames.now }
    ensures { result ≡ entry_at frames.now d }
{
    frames[4 * d + 2]
}

// The number of members at depth d.
pub fn count_at(frames: &[usize], d: usize) -> usize
    requires { 4 * d + 3 < length frames.now }
    ensures { result ≡ count_at frames.now d }
{
    frames[4 * d + 3]
}

// Writes the frame of depth d.
pub fn write(frames: &mut [usize], d: usize, start: usize, goal: usize, entry: usize, count: usize)
    requires { 4 * d + 3 < length frames.old }
    ensures { Written d start goal entry count frames.old frames.new }
{
    frames[4 * d] = start;
    frames[4 * d + 1] = goal;
    frames[4 * d + 2] = entry;
    frames[4 * d + 3] = count;
}
