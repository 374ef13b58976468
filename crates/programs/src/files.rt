// A file that an argument names, read into a lent area; one that can't be read gets a message that names it.
ghost use Rattle.std.specs.Prelude.{IfSome};
ghost use Rattle.io.specs.Counts.{IsPrefixLen};

use crate::{arguments, messages};
use std::env::Env;
use std::fs;
use std::fs::Files;
use std::io::Read;

// One read into the area: how many bytes came, 0 at the file's end. Where it fails, a message.
fn read_some(rt: &impl Eprint, file: &mut impl Read, name: &[u8], area: &mut [u8]) -> Option<usize>
    ensures { IfSome result (λ n. IsPrefixLen n area.new) }
{
    match file.read(area) {
        Ok(length) => Some(length),
        Err(why) => {
            messages::fail(rt, name, why);
            None
        }
    }
}

// Reads until the area is full or the file ends: how many bytes came. Where a read fails, a message.
fn read_bytes(rt: &impl Eprint, file: &mut impl Read, name: &[u8], area: &mut [u8]) -> Option<usize>
    ensures { IfSome result (λ n. IsPrefixLen n area.new) }
{
    let mut length = 0;
    while length < area.len() {
        let more = read_some(rt, file, name, &mut area[length..])?;
        if more == 0 {
            break;
        }
        length += more;
    }
    Some(length)
}

// Reads the file of that name: all of it, or as much as the area holds.
fn load_file(rt: &(impl Files + Eprint), name: &[u8], area: &mut [u8]) -> Option<usize>
    ensures { IfSome result (λ n. IsPrefixLen n area.new) }
{
    let path = arguments::path_of(rt, name)?;
    match fs::open(rt, path) {
        Ok(mut file) => read_bytes(rt, &mut file, name, area),
        Err(why) => {
            messages::fail(rt, name, why);
            None
        }
    }
}

// Reads the file that argument i names, all of it, or as much as the area holds: how many of its bytes stand at the area's start.
pub fn load(rt: &(impl Files + Env + Eprint), i: usize, area: &mut [u8]) -> Option<usize>
    ensures { IfSome result (λ n. IsPrefixLen n area.new) }
{
    let mut name = [0u8; 4096];
    let length = arguments::put_name(rt, i, &mut name)?;
    load_file(rt, &name[..length], area)
}

// Reads the files that arguments 1 and 2 name, each into its area.
pub fn load_both(
    rt: &(impl Files + Env + Eprint),
    first: &mut [u8],
    second: &mut [u8],
) -> Option<(usize, usize)>
    ensures { IfSome result (λ both. IsPrefixLen both.0 first.new × IsPrefixLen both.1 second.new) }
{
    let m = load(rt, 1, first)?;
    let n = load(rt, 2, second)?;
    Some((m, n))
}
