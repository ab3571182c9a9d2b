// `zapelaritz [DECK [CALLS]]`: the deck on standard input, or in the file DECK. Merges each of its waiting trees and prints the answers and the
// model; with CALLS, makes the calls of that file, one to a line, and prints what each answers.
//
// What is printed is proved, in `output`.
#![tactic(auto)]

use inputs::read_all;
use std::env::FillError;
use std::io;
use std::io::{ErrorKind, Read};
use std::process::ExitCode;
use std::rt::{Env, Files};
use streams::buffer::{CALLS_LIMIT, deck_buffer, megabyte};
use streams::files::{fail, open_read};
use streams::parts::print_all;

// A line on standard error: what it is about, and why.
fn complain(rt: &impl Eprint, what: &str, why: &str) -> io::Result<()> {
    eprintln!(rt; "{what}{why}")
}

// The deck, with the calls of a list where there is one. Of a longer deck, one byte more than a deck may have is handed on: it is refused.
fn run(
    rt: &(impl Print + Eprint),
    name: &str,
    file: &mut impl Read,
    calls: Option<&[u8]>,
) -> io::Result<()> {
    let mut deck = deck_buffer();
    match read_all(file, &mut deck) {
        Ok(n) => print_all(rt, &deck[..n], calls),
        Err(e) => fail(rt, name, e.error),
    }
}

// The deck in the file of this name.
fn run_file(
    rt: &(impl Files + Print + Eprint),
    name: &str,
    calls: Option<&[u8]>,
) -> io::Result<()> {
    match open_read(rt, name.as_bytes()) {
        Ok(mut file) => run(rt, name, &mut file, calls),
        Err(error) => fail(rt, name, error),
    }
}

// The deck in the file of this name, with the calls in an open file.
fn run_calls(
    rt: &(impl Files + Print + Eprint),
    name: &str,
    list: &str,
    file: &mut impl Read,
) -> io::Result<()> {
    let mut calls = megabyte();
    match read_all(file, &mut calls) {
        Ok(n) if n <= CALLS_LIMIT => run_file(rt, name, Some(&calls[..n])),
        Ok(_) => complain(
            rt,
            list,
            ": longer than the 1048575 bytes of the largest list of calls",
        ),
        Err(e) => fail(rt, list, e.error),
    }
}

fn run_list(rt: &(impl Files + Print + Eprint), name: &str, list: &str) -> io::Result<()> {
    match open_read(rt, list.as_bytes()) {
        Ok(mut file) => run_calls(rt, name, list, &mut file),
        Err(error) => fail(rt, list, error),
    }
}

// The i-th argument, where it is text that fits the buffer. Apart from that of inputs, and with the system's numbers 22 and 36 and no ErrorKind: the
// system's words for them are printed.
fn argument<'a>(rt: &impl Env, i: usize, buf: &'a mut [u8]) -> io::Result<&'a str> {
    match rt.arg(i, buf) {
        Ok(n) => match std::str::from_utf8(&buf[..n]) {
            Ok(word) => Ok(word),
            Err(_) => Err(io::Error::new(ErrorKind::InvalidInput, "the name is no UTF-8 text")),
        },
        Err(FillError::NotPresent) => Err(io::Error::from_raw_os_error(22)),
        Err(FillError::TooLong) => Err(io::Error::from_raw_os_error(36)),
    }
}

fn is_given(rt: &impl Env, i: usize) -> bool {
    let mut word = [0u8; 1];
    !matches!(rt.arg(i, &mut word), Err(FillError::NotPresent))
}

// How many arguments there are, the program's own name among them. They are asked for one by one: std gives no count here.
fn arg_count(rt: &impl Env) -> usize {
    for i in 0..usize::MAX {
        if !is_given(rt, i) {
            return i;
        }
    }
    usize::MAX
}

// By the second argument, the deck of this name alone or with a list of calls.
fn run_named(rt: &(impl Env + Files + Print + Eprint), name: &str, count: usize) -> io::Result<()> {
    if count == 2 {
        return run_file(rt, name, None);
    }
    let mut list = [0u8; 4096];
    match argument(rt, 2, &mut list) {
        Ok(list) => run_list(rt, name, list),
        Err(error) => fail(rt, "the second argument", error),
    }
}

// By the arguments.
fn start(rt: &(impl Env + Files + Input + Print + Eprint)) -> io::Result<()> {
    let count = arg_count(rt);
    if 3 < count {
        return complain(rt, "usage: ", "zapelaritz [DECK [CALLS]]");
    }
    if count < 2 {
        return run(rt, "standard input", &mut rt.reader(), None);
    }
    let mut name = [0u8; 4096];
    match argument(rt, 1, &mut name) {
        Ok(name) => run_named(rt, name, count),
        Err(error) => fail(rt, "the first argument", error),
    }
}

// What a shell says of a program that a closed pipe ended.
const READER_ENDED: u8 = 141;

// A reader that wants no more is no failure to speak of.
fn main(rt: HostRuntime) -> io::Result<ExitCode> {
    match start(&rt) {
        Ok(()) => Ok(ExitCode::SUCCESS),
        Err(error) if error.kind() == ErrorKind::BrokenPipe => Ok(ExitCode::from(READER_ENDED)),
        Err(error) => Err(error),
    }
}
