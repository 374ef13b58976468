// Standard output.
use crate::messages;

// Writes text to standard output, all of it; a message where that fails.
pub fn print(rt: &(impl Print + Eprint), text: &[u8]) {
    if let Err(why) = rt.write_all(text) {
        messages::fail(rt, b"standard output", why);
    }
}
