// Runs the scripts that data/list names and holds what each prints to the file of its answers; steps.rt has their language. They put numbers
// into the tables that no load and no call would, and show what tests and calls say of them. Machine words, floats and bytes come first.
#![tactic(auto)]

mod lent;
mod script;
mod state;
mod steps;

use scripts::cells::cut;
use scripts::words;
use std::io;
use std::rt::Files;
use streams::answers::{differing, held, read_file, word};
use streams::buffer::{deck_buffer, megabyte};

fn answers_held(
    rt: &(impl Files + Print),
    name: &[u8],
    out: &[u8],
    count: usize,
) -> io::Result<bool> {
    let n = cut(count, out);
    held(rt, name, &out[..n])
}

// Whether the script of this name prints its answers.
fn script_held(rt: &(impl Files + Print), name: &[u8]) -> io::Result<bool> {
    let mut text = megabyte();
    let Ok(n) = read_file(rt, name, b".script", &mut text) else {
        word(rt, name)?;
        word(rt, b".script is not read\n")?;
        return Ok(false);
    };
    let mut out = megabyte();
    let m = script::run(rt, &text[..n], &mut out);
    answers_held(rt, name, &out, m)
}

fn run_list(rt: &(impl Files + Print), list: &[u8]) -> io::Result<()> {
    if list.len() == 0 {
        return word(rt, b"the list names no script\n");
    }
    rt.print(differing(list, |name| script_held(rt, name))?)?;
    word(rt, b" scripts differ\n")
}

fn main(rt: HostRuntime) -> io::Result<()> {
    words::run(&rt)?;
    let mut list = deck_buffer();
    match read_file(&rt, b"list", b"", &mut list) {
        Ok(n) => run_list(&rt, &list[..n]),
        Err(_) => word(&rt, b"the list is not read\n"),
    }
}
