// Load, merge, range and rollback: the answer's code is the result, its numbers are written into the lent answer.
ghost use Rattle.std.specs.Prelude.{◌≡◌};
ghost use Rattle.load.specs.LoadCall.{zeros, tables_of};
ghost use Rattle.answer_numbers.specs.Numbers.{numbered};
ghost use Rattle.zapelaritz_c.specs.NumberedCalls.{numbered_load, numbered_merge, numbered_range, numbered_rollback, numbered_mark};

use answer_numbers::numbers::{
    ANSWER_SIZE, WRONG_SIZE, loaded_numbers, mark_numbers, merge_numbers, range_numbers,
    rollback_numbers, write_numbers,
};
use load::load::load;
use merge::calls::{merge, range, rollback};
use tables::model::clear;

// All lent tables zero, the answer too: five slices, where load clears three.
fn clear_lent(
    schema: &mut [u64],
    elements: &mut [u64],
    model: &mut [u64],
    log: &mut [u64],
    answer: &mut [u64],
)
    ensures schema_after { schema.new ≡ zeros schema.old }
    ensures elements_after { elements.new ≡ zeros elements.old }
    ensures model_after { model.new ≡ zeros model.old }
    ensures log_after { log.new ≡ zeros log.old }
    ensures answer_after { answer.new ≡ zeros answer.old }
{
    clear(schema);
    clear(elements);
    clear(model);
    clear(log);
    clear(answer);
}

#[unsafe(no_mangle)]
pub extern "C" fn zapelaritz_load(
    deck: &[u8],
    schema: &mut [u64],
    elements: &mut [u64],
    model: &mut [u64],
    log: &mut [u64],
    answer: &mut [u64],
) -> u64
    ensures { record { answer = numbered result answer.new; tables = tables_of schema.new elements.new model.new log.new }
        ≡ numbered_load deck.now (tables_of schema.old elements.old model.old log.old)
        answer.old }
{
    // The size is tested by each export: where the answer that C lends has no room, the call is not made.
    if answer.len() != ANSWER_SIZE {
        clear_lent(schema, elements, model, log, answer);
        return WRONG_SIZE;
    }
    let n = loaded_numbers(load(deck, schema, elements, model, log));
    write_numbers(answer, n)
}

#[unsafe(no_mangle)]
pub extern "C" fn zapelaritz_merge(
    deck: &[u8],
    schema: &[u64],
    elements: &[u64],
    model: &mut [u64],
    log: &mut [u64],
    file: u64,
    answer: &mut [u64],
) -> u64
    ensures { record { answer = numbered result answer.new; model = model.new; log = log.new }
        ≡ numbered_merge deck.now schema.now elements.now model.old log.old
        file answer.old }
{
    if answer.len() != ANSWER_SIZE {
        return WRONG_SIZE;
    }
    let n = merge_numbers(merge(deck, schema, elements, model, log, file));
    write_numbers(answer, n)
}

#[unsafe(no_mangle)]
pub extern "C" fn zapelaritz_rollback(
    deck: &[u8],
    schema: &[u64],
    elements: &[u64],
    model: &mut [u64],
    log: &mut [u64],
    mark: u64,
    answer: &mut [u64],
) -> u64
    ensures { record { answer = numbered result answer.new; model = model.new; log = log.new }
        ≡ numbered_rollback deck.now schema.now elements.now model.old log.old
        mark answer.old }
{
    if answer.len() != ANSWER_SIZE {
        return WRONG_SIZE;
    }
    let n = rollback_numbers(rollback(deck, schema, elements, model, log, mark));
    write_numbers(answer, n)
}

#[unsafe(no_mangle)]
pub extern "C" fn zapelaritz_range(
    deck: &[u8],
    schema: &[u64],
    elements: &[u64],
    model: &[u64],
    log: &[u64],
    element: u64,
    name: u64,
    version: u64,
    answer: &mut [u64],
) -> u64
    ensures { numbered result answer.new
        ≡ numbered_range deck.now schema.now elements.now model.now log.now
        element name version answer.old }
{
    let n = range_numbers(range(deck, schema, elements, model, log, element, name, version));
    write_numbers(answer, n)
}

// The mark of now: the log's length.
#[unsafe(no_mangle)]
pub extern "C" fn zapelaritz_mark(
    deck: &[u8],
    schema: &[u64],
    elements: &[u64],
    model: &[u64],
    log: &[u64],
    answer: &mut [u64],
) -> u64
    ensures { numbered result answer.new
        ≡ numbered_mark deck.now schema.now elements.now model.now log.now
        answer.old }
{
    let n = mark_numbers(deck, schema, elements, model, log);
    write_numbers(answer, n)
}
