// Files by name and ending, and what a test program printed, held to one of them.
ghost use Rattle.std.specs.Prelude.{◌≤◌, length, IfOk, IfErr};
ghost use Rattle.printing.specs.Counts.{IsPrefixLen};

use crate::buffer::{MEGABYTE, megabyte};
use crate::files::open_read;
use deck::lines::line_end;
use inputs::{ReadError, read_all};
use std::io;
use std::rt::Files;

pub fn word(rt: &impl Print, s: &[u8]) -> io::Result<()> {
    rt.write_all(s)
}

// The text behind the bytes that stand at the buffer's start, as far as there is room: how many stand there then.
fn append(buf: &mut [u8], at: usize, text: &[u8]) -> usize
    requires { at ≤ length buf.old }
    ensures { IsPrefixLen result buf.new }
{
    let n = text.len().min(buf.len() - at);
    buf[at..at + n].copy_from_slice(&text[..n]);
    at + n
}

// How many bytes of the file of this name and ending stand at the buffer's start, as far as it has room. A count, as `read_all` gives: some stand there
// where the read fails too.
pub fn read_file(
    rt: &impl Files,
    name: &[u8],
    ending: &[u8],
    buf: &mut [u8],
) -> Result<usize, ReadError>
    ensures read { IfOk result (λ n. IsPrefixLen n buf.new) }
    ensures failed { IfErr result (λ e. IsPrefixLen e.count buf.new) }
{
    let mut path = [0u8; 4096];
    let n = append(&mut path, 0, name);
    let m = append(&mut path, n, ending);
    match open_read(rt, &path[..m]) {
        Ok(mut file) => read_all(&mut file, buf),
        Err(error) => Err(ReadError { count: 0, error }),
    }
}

// How many bytes two texts have in common at their starts.
fn common_start(s: &[u8], t: &[u8]) -> usize
    ensures { (result ≤ length s.now) × (result ≤ length t.now) }
{
    s.iter().zip(t).take_while(|(a, b)| a == b).count()
}

// Where the last line of a text begins.
fn last_line(text: &[u8]) -> usize
    ensures { result ≤ length text.now }
{
    match text.iter().rposition(|byte| *byte == b'\n') {
        Some(i) => i + 1,
        None => 0,
    }
}

// The length of a text's first line.
fn first_line(text: &[u8]) -> usize
    ensures { IsPrefixLen result text.now }
{
    line_end(text, 0)
}

// The first line of a text, behind a title.
fn show_line(rt: &impl Print, title: &[u8], text: &[u8]) -> io::Result<()> {
    word(rt, title)?;
    if text.len() == 0 {
        return word(rt, b"no line\n");
    }
    let n = first_line(text);
    word(rt, &text[..n])?;
    word(rt, b"\n")
}

// Whether the two are the same; where not, the first line that differs.
fn compare(rt: &impl Print, name: &[u8], printed: &[u8], expected: &[u8]) -> io::Result<bool> {
    if printed == expected {
        return Ok(true);
    }
    let n = common_start(printed, expected);
    let start = last_line(&printed[..n]);
    let lines = printed[..n].iter().filter(|byte| **byte == b'\n').count();
    word(rt, name)?;
    word(rt, b": line ")?;
    rt.print(lines + 1)?;
    show_line(rt, b"\n  expected: ", &expected[start..])?;
    show_line(rt, b"  printed:  ", &printed[start..])?;
    Ok(false)
}

// Whether the file of this name and the ending `.out` has just these bytes; where not, what is wrong.
pub fn held(rt: &(impl Files + Print), name: &[u8], printed: &[u8]) -> io::Result<bool> {
    let mut expected = megabyte();
    let Ok(n) = read_file(rt, name, b".out", &mut expected) else {
        word(rt, name)?;
        word(rt, b": no answer in a file\n")?;
        return Ok(false);
    };
    if MEGABYTE <= printed.len() {
        word(rt, name)?;
        word(rt, b": longer than an answer may be\n")?;
        return Ok(false);
    }
    compare(rt, name, printed, &expected[..n])
}

// For how many of the list's lines the test does not hold.
pub fn differing<Holds: FnMut(&[u8]) -> io::Result<bool>>(
    list: &[u8],
    mut holds: Holds,
) -> io::Result<u64>
    requires { Holds.IsAlwaysCallable holds }
{
    let mut n: u64 = 0;
    for line in list.split_inclusive(|byte| *byte == b'\n') {
        if !holds(line.strip_suffix(b"\n").unwrap_or(line))? {
            n = n.wrapping_add(1);
        }
    }
    Ok(n)
}
