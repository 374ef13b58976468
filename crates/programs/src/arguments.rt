// The program's arguments. The program's own name is argument 0.
ghost use Rattle.std.specs.Prelude.{◌≡◌, ◌≤◌, length, IfSome, IsUtf8, MatchOption};

use crate::messages;
use std::env::{Env, FillError};
use std::io::Error;

// Linux's numbers of the reasons that a name has.
const INVALID: i32 = 22;

const TOO_LONG: i32 = 36;

const NOT_TEXT: i32 = 84;

// Whether there is an argument i.
fn has(rt: &impl Env, i: usize) -> bool {
    let mut begin = [0u8; 1];
    match rt.arg(i, &mut begin) {
        Ok(_) | Err(FillError::TooLong) => true,
        Err(FillError::NotPresent) => false,
    }
}

// Whether `last` is the number of the last argument.
pub fn end_at(rt: &impl Env, last: usize) -> bool {
    has(rt, last) && !has(rt, last.saturating_add(1))
}

// Writes argument i to the area's start; its length. Where it is missing or longer than the area, a message.
pub fn put_name(rt: &(impl Env + Eprint), i: usize, area: &mut [u8]) -> Option<usize>
    ensures { IfSome result (λ n. n ≤ length area.new) }
{
    let reason = match rt.arg(i, area) {
        Ok(length) => return Some(length),
        Err(FillError::TooLong) => TOO_LONG,
        Err(FillError::NotPresent) => INVALID,
    };
    messages::fail(rt, area, Error::from_raw_os_error(reason));
    None
}

// The name as std takes it, which is UTF-8; a message where it is not.
pub fn path_of<'a>(rt: &impl Eprint, name: &'a [u8]) -> Option<&'a str>
    ensures { MatchOption result (¬ (IsUtf8 name.now)) (λ path. (path.now ≡ name.now) × IsUtf8 name.now) }
{
    match str::from_utf8(name) {
        Ok(path) => Some(path),
        Err(_) => {
            messages::fail(rt, name, Error::from_raw_os_error(NOT_TEXT));
            None
        }
    }
}
