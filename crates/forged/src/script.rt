// A script run line by line.
use crate::state::{State, begin, output};
use crate::steps::step;
use printing::buffer::{append_bytes, append_number};
use scripts::areas::ALL_CELLS;
use std::rt::Files;
use streams::buffer::deck_buffer;

// `bad,line`; the count of bytes printed.
fn bad_line(out: &mut [u8], s: State, line: u64) -> usize {
    let w = append_bytes(out, output(s), b"bad,");
    append_number(out, w, line, 10, b'\n').count
}

// Up to a line that is no step, or that does not end.
fn run_lines(
    rt: &impl Files,
    script: &[u8],
    cells: &mut [u64; ALL_CELLS],
    deck: &mut [u8],
    out: &mut [u8],
) -> usize {
    let mut s = begin();
    let mut number: u64 = 0;
    for text in script.split_inclusive(|byte| *byte == b'\n') {
        number = number.wrapping_add(1);
        let next = match text.strip_suffix(b"\n") {
            Some(line) => step(rt, line, cells, deck, out, s),
            None => None,
        };
        match next {
            Some(next) => s = next,
            None => return bad_line(out, s, number),
        }
    }
    s.count
}

// On tables of zeros, with an empty deck; the count of bytes printed.
pub fn run(rt: &impl Files, script: &[u8], out: &mut [u8]) -> usize {
    let mut cells = [0u64; ALL_CELLS];
    let mut deck = deck_buffer();
    run_lines(rt, script, &mut cells, &mut deck, out)
}
