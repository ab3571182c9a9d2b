// The steps of a script, one to a line, their fields parted by commas. A line that begins with # is a comment; an empty one is passed over.
//   deck,FILE: the deck in the file is loaded into the tables as they are lent
//   merge,F  rollback,M  range,E,N,V: as in a list of calls
//   put,AREA,ROW,COLUMN,VALUE[,ROWS]: the value into a cell, and into so many rows; past the table's end nothing. Indexes fit the rows
//     afterwards, so that a wrong number of a row is refused for itself
//   all,VALUE: into every cell
//   size,TABLE,CELLS: from now on the table (schema, elements, model, log) is lent with so many cells, up to one more than it has
//   show,AREA,ROW,ROWS: the cells of so many rows
//   cells: how many cells of each lent table are not zero
//   test: what the test of the tables alone and the whole of refusal 0 say
//   keep  back  kept: the tables are copied, are the copy again, are compared with it
//   same: they are compared with what they were before the last deck or call
// Any other line ends the script.
ghost use Rattle.deck.specs.Answers.{Placed};

use crate::lent::{append_word, run_call};
use crate::state::{State, output, printed};
use deck::lines::{Fields, split};
use printing::buffer::{Written, append_bytes};
use requests::requests::read_request;
use scripts::areas::{ALL_CELLS, Area, BEFORE, CELLS, KEPT, everything};
use scripts::cells::{copy, fill, reindex_all, same, show};
use scripts::lines::{Call, Step, Table, of_request, read_step};
use std::rt::Files;
use streams::answers::read_file;

fn put(cells: &mut [u64], a: Area, row: u64, column: u64, rows: u64, value: u64) {
    fill(cells, a, row, column, rows, value);
    if a.indexed {
        reindex_all(cells);
    }
}

// The comma behind the last number becomes the line's end.
fn end_line(out: &mut [u8], w: Written) {
    if 0 < w.count && w.count <= out.len() {
        out[w.count - 1] = b'\n';
    }
}

fn show_rows(
    name: &[u8],
    cells: &[u64],
    a: Area,
    row: u64,
    rows: u64,
    out: &mut [u8],
    w: Written,
) -> Written {
    let u = append_bytes(out, w, name);
    let v = append_bytes(out, u, b",");
    let k = show(cells, a, row, rows, out, v);
    end_line(out, k);
    k
}

// The table is lent with so many cells.
fn resized(s: State, table: Table, n: usize) -> State {
    match table {
        Table::Schema => State { schema: n, ..s },
        Table::Elements => State { elements: n, ..s },
        Table::Model => State { model: n, ..s },
        Table::Log => State { log: n, ..s },
    }
}

// The first word where the tables are those from a place on, else the second.
fn compare(
    cells: &[u64],
    at: usize,
    out: &mut [u8],
    s: State,
    equal: &[u8],
    unequal: &[u8],
) -> State {
    let w = append_word(out, output(s), same(cells, 0, at, CELLS), equal, unequal);
    printed(s, w)
}

// What the tables are before a load, a merge, a rollback or a range is copied.
fn call_step(cells: &mut [u64], deck: &[u8], out: &mut [u8], s: State, call: Call) -> State {
    if !matches!(call, Call::Test | Call::Count) {
        copy(cells, 0, BEFORE, CELLS);
    }
    run_call(cells, deck, call, out, s)
}

// The deck in the file of this name, loaded; none where it cannot be read.
fn load_step(
    rt: &impl Files,
    file: &[u8],
    cells: &mut [u64],
    deck: &mut [u8],
    out: &mut [u8],
    s: State,
) -> Option<State> {
    let n = read_file(rt, file, b"", deck).ok()?;
    Some(call_step(cells, deck, out, State { deck: n, ..s }, Call::Load))
}

fn make_step(
    rt: &impl Files,
    cells: &mut [u64; ALL_CELLS],
    deck: &mut [u8],
    out: &mut [u8],
    s: State,
    step: Step,
) -> Option<State> {
    match step {
        Step::Deck { file } => return load_step(rt, file, cells, deck, out, s),
        Step::Call(call) => return Some(call_step(cells, deck, out, s, call)),
        Step::Same => return Some(compare(cells, BEFORE, out, s, b"same\n", b"changed\n")),
        Step::Kept => return Some(compare(cells, KEPT, out, s, b"kept\n", b"not kept\n")),
        Step::Show {
            name,
            area,
            row,
            rows,
        } => {
            let w = show_rows(name, cells, area, row, rows, out, output(s));
            return Some(printed(s, w));
        }
        Step::Size { table, cells } => return Some(resized(s, table, cells as usize)),
        Step::Put {
            area,
            row,
            column,
            value,
            rows,
        } => put(cells, area, row, column, rows, value),
        Step::All { value } => fill(cells, everything(), 0, 0, CELLS as u64, value),
        Step::Keep => copy(cells, 0, KEPT, CELLS),
        Step::Back => copy(cells, KEPT, 0, CELLS),
    }
    Some(s)
}

// An empty line or a comment.
fn passed_over(line: &[u8]) -> bool {
    matches!(line, [] | [b'#', ..])
}

// What the line says, which has these fields.
fn read_line(line: &[u8], f: Fields) -> Option<Step<'_>>
    requires { Placed line.now f }
{
    match read_step(line, f) {
        Some(step) => Some(step),
        None => Some(Step::Call(of_request(read_request(line, 0, line.len())?)?)),
    }
}

// Makes the step of a line; none where it is no step.
pub fn step(
    rt: &impl Files,
    line: &[u8],
    cells: &mut [u64; ALL_CELLS],
    deck: &mut [u8],
    out: &mut [u8],
    s: State,
) -> Option<State> {
    if passed_over(line) {
        return Some(s);
    }
    let f = split(line, 0, line.len());
    make_step(rt, cells, deck, out, s, read_line(line, f)?)
}
