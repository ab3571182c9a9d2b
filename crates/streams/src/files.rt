// Files opened by their names, and what is said of one that failed.
use std::fs::File;
use std::io;
use std::io::{ErrorKind, Write};
use std::rt::Files;

// The file of this name, for reading.
pub fn open_read<R: Files>(rt: &R, name: &[u8]) -> io::Result<R::File> {
    match std::str::from_utf8(name) {
        Ok(path) => File::open(rt, path),
        Err(_) => Err(io::Error::new(ErrorKind::InvalidInput, "the name is no UTF-8 text")),
    }
}

// What stands before the mark, or all.
fn before<'a>(text: &'a str, mark: &str) -> &'a str {
    match text.split_once(mark) {
        Some((first, _)) => first,
        None => text,
    }
}

// A line on standard error: what failed, a colon, and why, in the words of the system.
pub fn fail(rt: &impl Eprint, what: &str, error: io::Error) -> io::Result<()> {
    let mut words = [0u8; 256];
    let mut rest: &mut [u8] = &mut words;
    let _ = write!(rest, "{error}");
    let text = std::str::from_utf8(&words).unwrap_or("");
    let why = before(before(text, "\0"), " (os error ");
    eprintln!(rt; "{what}: {why}")
}
