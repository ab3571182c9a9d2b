// The bytes that the program prints, in parts: each call writes those from a byte on, as many as the buffer has room for.
ghost use Rattle.std.specs.Prelude.{[], ◌∷◌, ◌≡◌, is_some};
ghost use Rattle.tables.specs.ElementsTable.{elements_of};
ghost use Rattle.state_test.specs.StateTest.{fixed_in, state_in};
ghost use Rattle.deck.specs.Deck.{lines};
ghost use Rattle.merge_rules.specs.CallLists.{bad_call, call_lines, calls_output};
ghost use Rattle.merge_rules.specs.Program.{merge_lines, output};
ghost use Rattle.merge_rules.specs.Standing.{Standing};
ghost use Rattle.printing.specs.Buffers.{buffer_is, Appends, print_from};
ghost use Rattle.output.specs.Replies.{Shows, list_in, run_lines, run_output};

use crate::answers::append_refused_deck;
use crate::reply::{reply, reply_merge};
use deck::lines::line_end;
use load::load::load;
use printing::buffer::{Written, append_bytes, append_number};
use printing::trees::append_model;
use requests::requests::read_request;
use tables::elements::{ELEMENTS_SIZE, tree_count, tree_file};
use tables::log::LOG_SIZE;
use tables::model::MODEL_SIZE;
use tables::schema::SCHEMA_SIZE;

// Merges each waiting tree in deck order, with its answer, then the model.
fn merge_trees(
    deck: &[u8],
    schema: &[u64],
    elements: &[u64],
    model: &mut [u64],
    log: &mut [u64],
    out: &mut [u8],
    w: Written,
) -> Written
    requires { Standing deck.now schema.now elements.now model.old log.old }
    ensures { Appends (buffer_is w out.old) (merge_lines (fixed_in deck.now schema.now elements.now) (elements_of elements.now).trees (state_in model.old log.old)) (buffer_is result out.new) }
{
    let n = tree_count(elements);
    let mut k = w;
    for t in 0..n {
        let f = tree_file(elements, t);
        k = reply_merge(deck, schema, elements, model, log, f.0, out, k);
    }
    append_model(deck, elements, model, out, k)
}

// `calls,line`
fn append_bad_call(out: &mut [u8], w: Written, line: u64) -> Written
    ensures { Appends (buffer_is w out.old) (bad_call line) (buffer_is result out.new) }
{
    let k = append_bytes(out, w, b"calls,");
    append_number(out, k, line, 10, b'\n')
}

// Makes the calls of the list in order; ends where there is no room left, since nothing more is written then.
fn answer_calls(
    deck: &[u8],
    schema: &[u64],
    elements: &[u64],
    model: &mut [u64],
    log: &mut [u64],
    calls: &[u8],
    out: &mut [u8],
    w: Written,
) -> Written
    requires { Standing deck.now schema.now elements.now model.old log.old }
    ensures { Shows (buffer_is w out.old) (call_lines (fixed_in deck.now schema.now elements.now) 0 (lines calls.now) (state_in model.old log.old)) (buffer_is result out.new) }
{
    let mut k = w;
    let mut at: usize = 0;
    let mut n: u64 = 0;
    // No `for`: the end of a line is known once it is found, and a full buffer ends the calls.
    while at < calls.len() {
        if out.len() <= k.count {
            return k;
        }
        n += 1;
        let end = line_end(calls, at);
        if calls.len() <= end {
            return append_bad_call(out, k, n);
        }
        let next = end + 1;
        let Some(r) = read_request(calls, at, end) else {
            return append_bad_call(out, k, n);
        };
        k = reply(deck, schema, elements, model, log, r, out, k);
        at = next;
    }
    k
}

// What is printed of a loaded deck: by a list of calls, or by the merges of its trees.
fn run(
    deck: &[u8],
    schema: &[u64],
    elements: &[u64],
    model: &mut [u64],
    log: &mut [u64],
    calls: Option<&[u8]>,
    out: &mut [u8],
    w: Written,
) -> Written
    requires { Standing deck.now schema.now elements.now model.old log.old }
    ensures { Shows (buffer_is w out.old)
        (run_lines (is_some calls.entry) (fixed_in deck.now schema.now elements.now) (list_in calls.entry) (state_in model.old log.old))
        (buffer_is result out.new) }
{
    match calls {
        Some(calls) => answer_calls(deck, schema, elements, model, log, calls, out, w),
        None => merge_trees(deck, schema, elements, model, log, out, w),
    }
}

// What the program prints for a deck, with a list of calls where there is one, from byte `from` on, as far as there is room; the count of bytes written.
fn print_run(deck: &[u8], calls: Option<&[u8]>, from: usize, out: &mut [u8]) -> usize
    ensures { record { count = result; buffer = out.new }
        ≡ print_from (run_output (is_some calls.entry) deck.now (list_in calls.entry)) from out.old }
{
    let mut schema = [0u64; SCHEMA_SIZE];
    let mut elements = [0u64; ELEMENTS_SIZE];
    let mut model = [0u64; MODEL_SIZE];
    let mut log = [0u64; LOG_SIZE];
    let w = Written {
        skip: from,
        count: 0,
    };
    if let Err(e) = load(deck, &mut schema, &mut elements, &mut model, &mut log) {
        return append_refused_deck(out, w, e.refusal.number(), e.line).count;
    }
    run(
        deck, &schema, &elements, &mut model, &mut log, calls, out, w,
    )
    .count
}

// What the program prints for a deck, from byte `from` on, as far as there is room; the count of bytes written.
pub fn print_output(deck: &[u8], from: usize, out: &mut [u8]) -> usize
    ensures { record { count = result; buffer = out.new } ≡ print_from (output deck.now) from out.old }
{
    print_run(deck, None, from, out)
}

// What the program prints for a deck and a list of calls, from byte `from` on, as far as there is room; the count of bytes written.
pub fn print_calls(deck: &[u8], calls: &[u8], from: usize, out: &mut [u8]) -> usize
    ensures { record { count = result; buffer = out.new } ≡ print_from (calls_output deck.now calls.now) from out.old }
{
    print_run(deck, Some(calls), from, out)
}
