// What a program is given: the bytes of a file, and its arguments.
#![tactic(auto)]

ghost use Rattle.std.specs.Prelude.{◌≡◌, ◌≤◌, length, take, IfOk, IfErr, IfSome};

use std::env::FillError;
use std::io;
use std::io::{ErrorKind, Read};
use std::rt::Env;

// Why a file was not read to its end, and how many of its bytes stand at the buffer's start.
#[derive(Clone, Copy)]
pub struct ReadError {
    pub count: usize,
    pub error: io::Error,
}

impl From<ReadError> for io::Error {
    ghost use Rattle.std.specs.Prelude.{◌≡◌};

    ghost from_gives = { λ e r. r ≡ e.error };

    fn from(e: ReadError) -> io::Error {
        e.error
    }
}

// A file read to its end, or as far as the buffer has room: how many of its bytes stand at the buffer's start. A count, not the bytes, since a read
// that fails tells how many stand there too.
pub fn read_all(file: &mut impl Read, buf: &mut [u8]) -> Result<usize, ReadError>
    ensures read { IfOk result (λ n. (n ≤ length buf.new) × (n ≡ length (take n buf.new))) }
    ensures failed { IfErr result (λ e. (e.count ≤ length buf.new) × (e.count ≡ length (take e.count buf.new))) }
{
    let mut n: usize = 0;
    // No `for`: a read gives any number of bytes.
    while n < buf.len() {
        match file.read(&mut buf[n..]) {
            Ok(0) => return Ok(n),
            Ok(more) => n += more,
            Err(error) => return Err(ReadError { count: n, error }),
        }
    }
    Ok(n)
}

// The i-th argument, put into the buffer; none where there are no more.
pub fn argument<'a>(rt: &impl Env, i: usize, word: &'a mut [u8]) -> io::Result<Option<&'a [u8]>>
    ensures { IfOk result (λ r. IfSome r (λ w. length w.now ≤ length word.old)) }
{
    match rt.arg(i, word) {
        Ok(n) => Ok(Some(&word[..n])),
        Err(FillError::NotPresent) => Ok(None),
        Err(FillError::TooLong) => Err(io::Error::from(ErrorKind::InvalidFilename)),
    }
}
