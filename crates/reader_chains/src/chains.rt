// Links and items of chains by their place.
ghost use Rattle.std.specs.Prelude.{◌≡◌};
ghost use Rattle.reader.specs.Files.{words};
ghost use Rattle.reader_chains.specs.Chains.{link_at, item_at, has_links};

use reader::Files;

// Link n of the chain from link c on, the first being link 0; 0 past its end, as no link is record 0.
pub fn link_at(files: &Files, c: usize, n: usize) -> usize
    ensures { result ≡ link_at (words files.now) c n }
{
    let mut l = c;
    for _ in 0..n {
        if l == 0 {
            return 0;
        }
        l = files.lower_at(l, 3);
    }
    l
}

// The item of that link; 0 past the chain's end.
pub fn item_at(files: &Files, c: usize, n: usize) -> usize
    ensures { result ≡ item_at (words files.now) c n }
{
    let l = link_at(files, c, n);
    files.lower_at(l, 1)
}

// Has the chain n + 1 links? No more than these are walked.
pub fn has_links(files: &Files, c: usize, n: usize) -> bool
    ensures { result ≡ has_links (words files.now) c n }
{
    let l = link_at(files, c, n);
    if l == 0 {
        return false;
    }
    files.lower_at(l, 3) == 0
}
