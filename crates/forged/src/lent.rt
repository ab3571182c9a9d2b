// The tables as they are lent, to the calls and to the tests.
use crate::state::{State, output, printed};
use load::load::load;
use merge::calls::{merge, range, rollback};
use output::answers::{append_merge, append_range, append_refused_deck, append_rollback};
use printing::buffer::{Written, append_bytes, append_number};
use scripts::areas::{ELEMENTS, LOG, MODEL};
use scripts::cells::{cut, not_zero, put_back, take_out};
use scripts::lines::Call;
use state_test::state::lent_tables_pass;
use table_test::test::tables_pass;
use tables::elements::ELEMENTS_SIZE;
use tables::log::LOG_SIZE;
use tables::model::MODEL_SIZE;
use tables::schema::SCHEMA_SIZE;

// Three functions for the three calls, as output has three: those hold of tables that stand, these of any.
fn merge_line(
    deck: &[u8],
    schema: &[u64],
    elements: &[u64],
    model: &mut [u64],
    log: &mut [u64],
    file: u64,
    out: &mut [u8],
    w: Written,
) -> Written {
    let a = merge(deck, schema, elements, model, log, file);
    append_merge(out, w, file, a)
}

fn rollback_line(
    deck: &[u8],
    schema: &[u64],
    elements: &[u64],
    model: &mut [u64],
    log: &mut [u64],
    mark: u64,
    out: &mut [u8],
    w: Written,
) -> Written {
    let a = rollback(deck, schema, elements, model, log, mark);
    append_rollback(out, w, mark, a)
}

fn range_line(
    deck: &[u8],
    schema: &[u64],
    elements: &[u64],
    model: &[u64],
    log: &[u64],
    element: u64,
    name: u64,
    version: u64,
    out: &mut [u8],
    w: Written,
) -> Written {
    let a = range(deck, schema, elements, model, log, element, name, version);
    append_range(out, w, element, name, version, a)
}

fn load_line(
    deck: &[u8],
    schema: &mut [u64],
    elements: &mut [u64],
    model: &mut [u64],
    log: &mut [u64],
    out: &mut [u8],
    w: Written,
) -> Written {
    match load(deck, schema, elements, model, log) {
        Ok(()) => append_bytes(out, w, b"loaded\n"),
        Err(e) => append_refused_deck(out, w, e.refusal.number(), e.line),
    }
}

// One of two words.
pub fn append_word(out: &mut [u8], w: Written, b: bool, yes: &[u8], no: &[u8]) -> Written {
    if b {
        return append_bytes(out, w, yes);
    }
    append_bytes(out, w, no)
}

// What the test of the tables alone says, and the whole.
fn test_line(
    deck: &[u8],
    schema: &[u64],
    elements: &[u64],
    model: &[u64],
    log: &[u64],
    out: &mut [u8],
    w: Written,
) -> Written {
    let a = tables_pass(deck, schema, elements, model, log);
    let b = lent_tables_pass(deck, schema, elements, model, log);
    let k = append_word(out, w, a, b"tables pass, ", b"tables refused, ");
    append_word(out, k, b, b"whole passes\n", b"whole refused\n")
}

fn count_two(s: &[u64], t: &[u64], out: &mut [u8], w: Written, end: u8) -> Written {
    let k = append_number(out, w, not_zero(s) as u64, 10, b',');
    append_number(out, k, not_zero(t) as u64, 10, end)
}

// How many cells of each table are not zero.
fn count_line(
    schema: &[u64],
    elements: &[u64],
    model: &[u64],
    log: &[u64],
    out: &mut [u8],
    w: Written,
) -> Written {
    let v = append_bytes(out, w, b"cells,");
    let k = count_two(schema, elements, out, v, b',');
    count_two(model, log, out, k, b'\n')
}

fn answer(
    deck: &[u8],
    schema: &mut [u64],
    elements: &mut [u64],
    model: &mut [u64],
    log: &mut [u64],
    call: Call,
    out: &mut [u8],
    w: Written,
) -> Written {
    match call {
        Call::Load => load_line(deck, schema, elements, model, log, out, w),
        Call::Merge { file } => merge_line(deck, schema, elements, model, log, file, out, w),
        Call::Rollback { mark } => rollback_line(deck, schema, elements, model, log, mark, out, w),
        Call::Range {
            element,
            name,
            version,
        } => {
            range_line(
                deck, schema, elements, model, log, element, name, version, out, w,
            )
        }
        Call::Test => test_line(deck, schema, elements, model, log, out, w),
        Call::Count => count_line(schema, elements, model, log, out, w),
    }
}

// Deck and tables cut to the lengths that they are lent with.
fn lend(
    deck: &[u8],
    schema: &mut [u64],
    elements: &mut [u64],
    model: &mut [u64],
    log: &mut [u64],
    call: Call,
    out: &mut [u8],
    s: State,
) -> Written {
    let d = cut(s.deck, deck);
    let i = cut(s.schema, schema);
    let j = cut(s.elements, elements);
    let k = cut(s.model, model);
    let n = cut(s.log, log);
    answer(
        &deck[..d],
        &mut schema[..i],
        &mut elements[..j],
        &mut model[..k],
        &mut log[..n],
        call,
        out,
        output(s),
    )
}

fn take_tables(
    cells: &[u64],
    schema: &mut [u64],
    elements: &mut [u64],
    model: &mut [u64],
    log: &mut [u64],
) {
    take_out(cells, 0, schema);
    take_out(cells, ELEMENTS, elements);
    take_out(cells, MODEL, model);
    take_out(cells, LOG, log);
}

fn put_tables(cells: &mut [u64], schema: &[u64], elements: &[u64], model: &[u64], log: &[u64]) {
    put_back(cells, 0, schema);
    put_back(cells, ELEMENTS, elements);
    put_back(cells, MODEL, model);
    put_back(cells, LOG, log);
}

// A call on tables of their own, and these put back.
pub fn run_call(cells: &mut [u64], deck: &[u8], call: Call, out: &mut [u8], s: State) -> State {
    let mut schema = [0u64; SCHEMA_SIZE + 1];
    let mut elements = [0u64; ELEMENTS_SIZE + 1];
    let mut model = [0u64; MODEL_SIZE + 1];
    let mut log = [0u64; LOG_SIZE + 1];
    take_tables(cells, &mut schema, &mut elements, &mut model, &mut log);
    let w = lend(
        deck,
        &mut schema,
        &mut elements,
        &mut model,
        &mut log,
        call,
        out,
        s,
    );
    put_tables(cells, &schema, &elements, &model, &log);
    printed(s, w)
}
