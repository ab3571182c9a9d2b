// The output, written part by part.
ghost use Rattle.printing.specs.Counts.{IsPrefixLen};

use crate::buffer::{MEGABYTE, megabyte};
use crate::files::fail;
use output::print::{print_calls, print_output};
use std::io;
use std::io::ErrorKind;

// Parts begin up to here; no run prints as much.
const LAST_PART: usize = 0x7fff_ffff_ffff_ffff;

// What the program prints for the deck from this byte on: with the list of calls, or merging its trees.
pub fn part(deck: &[u8], calls: Option<&[u8]>, from: usize, out: &mut [u8]) -> usize
    ensures { IsPrefixLen result out.new }
{
    match calls {
        Some(calls) => print_calls(deck, calls, from, out),
        None => print_output(deck, from, out),
    }
}

// Whether another part may follow: this one is full, and is written. A reader that wants no more is for the caller to answer, without a word here.
fn write_part(rt: &(impl Print + Eprint), part: &[u8]) -> io::Result<bool> {
    match rt.write_all(part) {
        Ok(()) => Ok(part.len() == MEGABYTE),
        Err(error) if error.kind() == ErrorKind::BrokenPipe => Err(error),
        Err(error) => {
            fail(rt, "standard output", error)?;
            Ok(false)
        }
    }
}

// The part that begins at this byte.
fn print_part(
    rt: &(impl Print + Eprint),
    deck: &[u8],
    calls: Option<&[u8]>,
    from: usize,
) -> io::Result<bool> {
    let mut out = megabyte();
    let n = part(deck, calls, from, &mut out);
    write_part(rt, &out[..n])
}

// All parts.
pub fn print_all(rt: &(impl Print + Eprint), deck: &[u8], calls: Option<&[u8]>) -> io::Result<()> {
    let mut from: usize = 0;
    // No `for`: the first part that is not full is the last.
    while from <= LAST_PART && print_part(rt, deck, calls, from)? {
        from += MEGABYTE;
    }
    Ok(())
}
