// Messages on standard error. One that can't be written is lost.
use std::io;
use std::io::{Cursor, Write};

// Writes a line: what failed, a colon and the reason, without the number that std puts behind the system's words. A name that is not UTF-8 is written with
// its other bytes as `\xff`.
pub fn fail(rt: &impl Eprint, what: &[u8], why: io::Error) {
    let mut written = Cursor::new([0u8; 256]);
    let _ = write!(written, "{why}");
    let length = written.position().min(256) as usize;
    let area = written.into_inner();
    let words = str::from_utf8(&area[..length]).unwrap_or("");
    let reason = match words.split_once(" (os error ") {
        Some((before, _)) => before,
        None => words,
    };
    let _ = match str::from_utf8(what) {
        Ok(name) => eprintln!(rt; "{name}: {reason}"),
        Err(_) => eprintln!(rt; "{}: {reason}", what.escape_ascii()),
    };
}
