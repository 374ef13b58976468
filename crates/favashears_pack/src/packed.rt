// An answer in one number, as the C entries give it.
ghost use Rattle.std.specs.Prelude.{◌≡◌};
ghost use Rattle.favashears_pack.specs.Pack.{pack};

use reader::Answer;

// The four numbers in their bits.
pub fn pack(a: Answer) -> u64
    ensures { result ≡ pack a }
{
    (((a.refusal % 256) as u64) << 56)
        + (((a.file % 256) as u64) << 48)
        + (((a.at % 16777216) as u64) << 24)
        + ((a.nodes % 16777216) as u64)
}
