// A file that an argument names, written whole or not at all: the bytes go into a new file beside it, which then takes its name.
ghost use Rattle.std.specs.Prelude.{◌+◌, ◌≤◌, length};
ghost use Rattle.programs.specs.Names.{NamesPart};

use crate::{arguments, messages};
use programs_text::text;
use std::env::Env;
use std::fs::{Files, OpenFile, OpenOptions};
use std::io::{ErrorKind, Write};
use std::{fs, io};

// Writes the name of the temporary file, the name with `.part` behind it, to the area's start; its length.
fn put_part(area: &mut [u8], name: &[u8]) -> usize
    requires { length name.now + 5 ≤ length area.old }
    ensures { NamesPart name.now area.new result }
{
    let end = text::append(area, 0, name);
    text::append(area, end, b".part")
}

// Writes the bytes to an open file, as far as its device, and closes it.
fn write_through<F: Write + OpenFile + Drop>(mut file: F, bytes: &[u8]) -> io::Result<()> {
    file.write_all(bytes)?;
    file.sync_all()
}

// Writes the bytes to the temporary file, which is open, closes it and gives it the name.
fn replace<F: Write + OpenFile + Drop>(
    rt: &impl Files,
    file: F,
    name: &str,
    part: &str,
    bytes: &[u8],
) -> io::Result<()> {
    write_through(file, bytes)?;
    fs::rename(rt, part, name)
}

// Says why the temporary file can't be made. A file that has its name already is not this program's, and is left alone: the message names it.
fn fail_new(rt: &impl Eprint, name: &[u8], part: &[u8], why: io::Error) {
    if why.kind() == ErrorKind::AlreadyExists {
        messages::fail(rt, part, why);
    } else {
        messages::fail(rt, name, why);
    }
}

// Writes the bytes to the temporary file and gives it the name; where that can't be done, removes it again. Whether it is done.
fn save_by(rt: &(impl Files + Eprint), name: &str, part: &str, bytes: &[u8]) -> bool {
    let file = match OpenOptions::new()
        .write(true)
        .create_new(true)
        .open(rt, part)
    {
        Ok(file) => file,
        Err(why) => {
            fail_new(rt, name.as_bytes(), part.as_bytes(), why);
            return false;
        }
    };
    if let Err(why) = replace(rt, file, name, part, bytes) {
        messages::fail(rt, name.as_bytes(), why);
        let _ = fs::remove_file(rt, part);
        return false;
    }
    true
}

// Writes the bytes to the file of that name. The area has room for any name that `save` takes, with `.part` behind it.
fn save_file(rt: &(impl Files + Eprint), name: &[u8], bytes: &[u8]) -> bool
    requires { length name.now ≤ 4090 }
{
    let mut area = [0u8; 4096];
    let n = put_part(&mut area, name);
    let Some(path) = arguments::path_of(rt, name) else {
        return false;
    };
    match arguments::path_of(rt, &area[..n]) {
        Some(part) => save_by(rt, path, part, bytes),
        None => false,
    }
}

// Writes the bytes to the file that argument i names; whether it is done. A longer name than 4,090 bytes leaves no room for `.part` in a path and is too long.
pub fn save(rt: &(impl Files + Env + Eprint), i: usize, bytes: &[u8]) -> bool {
    let mut name = [0u8; 4090];
    match arguments::put_name(rt, i, &mut name) {
        Some(length) => save_file(rt, &name[..length], bytes),
        None => false,
    }
}
