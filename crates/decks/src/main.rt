// Runs each case that data/list names, and compares what the program prints with the case's answer. A line of the list is a case's name, and
// behind a space the name of the case whose deck it takes where it has none of its own. The case NAME has the files NAME.deck, NAME.calls where
// calls are made, and NAME.out. docs/WORKING.md says what is in which folder.
#![tactic(auto)]

use std::io;
use std::rt::Files;
use streams::answers::{differing, held, read_file, word};
use streams::buffer::{deck_buffer, megabyte};
use streams::parts::part;

// Whether what is printed is the answer of the case.
fn answered(
    rt: &(impl Files + Print),
    name: &[u8],
    deck: &[u8],
    calls: Option<&[u8]>,
) -> io::Result<bool> {
    let mut out = megabyte();
    let n = part(deck, calls, 0, &mut out);
    held(rt, name, &out[..n])
}

// With the calls of the case, where it has some.
fn run(rt: &(impl Files + Print), name: &[u8], deck: &[u8]) -> io::Result<bool> {
    let mut calls = megabyte();
    match read_file(rt, name, b".calls", &mut calls) {
        Ok(n) => answered(rt, name, deck, Some(&calls[..n])),
        Err(_) => answered(rt, name, deck, None),
    }
}

// On the deck of this name, of which one byte more than a deck may have matters.
fn run_on(rt: &(impl Files + Print), name: &[u8], deck_name: &[u8]) -> io::Result<bool> {
    let mut deck = deck_buffer();
    let Ok(n) = read_file(rt, deck_name, b".deck", &mut deck) else {
        word(rt, name)?;
        word(rt, b": no deck in a file\n")?;
        return Ok(false);
    };
    run(rt, name, &deck[..n])
}

// The case of a line of the list.
fn run_case(rt: &(impl Files + Print), line: &[u8]) -> io::Result<bool> {
    match line.iter().position(|byte| *byte == b' ') {
        Some(end) => run_on(rt, &line[..end], &line[end + 1..]),
        None => run_on(rt, line, line),
    }
}

fn main(rt: HostRuntime) -> io::Result<()> {
    let mut list = megabyte();
    // Of a list that cannot be read to its end, the cases up to there.
    let n = match read_file(&rt, b"list", b"", &mut list) {
        Ok(n) => n,
        Err(e) => e.count,
    };
    if n == 0 {
        return word(&rt, b"list: no case\n");
    }
    rt.print(differing(&list[..n], |line| run_case(&rt, line))?)?;
    word(&rt, b" cases differ\n")
}
