// Tests on numbers that several modules make.
ghost use Rattle.std.specs.Prelude.{◌≡◌};
ghost use Rattle.reader.specs.Tests.{between};

// low ≤ a ≤ high
pub fn is_between(low: usize, high: usize, a: usize) -> bool
    ensures { result ≡ between low high a }
{
    if a < low {
        return false;
    }
    a <= high
}
