// Chains of records.
ghost use Rattle.std.specs.Iterator.{YieldsFirst, item_count};
ghost use Rattle.std.specs.Prelude.{◌≡◌, leb, length};
ghost use Rattle.reader.specs.Files.{words};
ghost use Rattle.reader.specs.Chains.{linked};
ghost use Rattle.reader.specs.Links.{left};

use crate::Files;

// Has the chain from record c on at most `most` records? No more than those are read.
pub fn at_most(files: &Files, c: usize, most: usize) -> bool
    ensures { result ≡ leb (length (linked (words files.now) c)) most }
{
    let mut at = c;
    for _ in 0..most {
        if at == 0 {
            return true;
        }
        at = files.lower_at(at, 3);
    }
    at == 0
}

// The records of a chain, from the record `next` on.
#[derive(Drop)]
pub struct Links<'a, 'b> {
    pub files: &'a Files<'b>,
    pub next: usize,
}

impl Iterator for Links<'_, '_> {
    type Item = usize;

    ghost next_gives = { YieldsFirst left };

    ghost remaining = { item_count left };

    fn next(&mut self) -> Option<usize> {
        let link = self.next;
        if link == 0 {
            return None;
        }
        self.next = self.files.lower_at(link, 3);
        Some(link)
    }
}

impl<'b> Files<'b> {
    // The records of the chain from record c on.
    pub fn links<'a>(&'a self, c: usize) -> Links<'a, 'b>
        ensures { left result ≡ linked (words self.now) c }
    {
        Links {
            files: self,
            next: c,
        }
    }
}
