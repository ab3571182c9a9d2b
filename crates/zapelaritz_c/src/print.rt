// What lent tables say, and what the program prints, in parts: each call writes the bytes from `from` on, as many as there is room for.
ghost use Rattle.std.specs.Prelude.{◌≡◌};
ghost use Rattle.merge_rules.specs.CallLists.{calls_output};
ghost use Rattle.merge_rules.specs.Program.{output};
ghost use Rattle.printing.specs.Buffers.{print_from};
ghost use Rattle.answer_numbers.specs.Numbers.{numbered, numbers_is, accept};
ghost use Rattle.zapelaritz_c.specs.PrintedTexts.{model_text, trees_text, log_text, listing_is, printed_text, numbered_text};

use answer_numbers::numbers::{ANSWER_SIZE, Numbers, WRONG_SIZE, accepted, refused, write_numbers};
use output::entries::append_log;
use output::print::{print_calls, print_output};
use printing::buffer::Written;
use printing::trees::{append_model, append_trees};
use state_test::state::lent_tables_pass;

#[derive(Clone, Copy)]
pub enum Listing {
    Model,
    Trees,
    Log,
}

fn counted(w: Written) -> Numbers
    ensures { numbers_is result ≡ accept w.count 0 0 0 }
{
    accepted(w.count as u64, 0, 0, 0)
}

// Without room there is nothing to print, and forged tables can be long to walk.
fn listing_numbers(
    l: Listing,
    deck: &[u8],
    schema: &[u64],
    elements: &[u64],
    model: &[u64],
    log: &[u64],
    from: usize,
    out: &mut [u8],
) -> Numbers
    ensures { record { answer = numbers_is result; buffer = out.new }
        ≡ printed_text (listing_is l) deck.now schema.now elements.now model.now log.now
        from out.old }
{
    if !lent_tables_pass(deck, schema, elements, model, log) {
        return refused(0, 0, 0);
    }
    if out.len() == 0 {
        return accepted(0, 0, 0, 0);
    }
    let w = Written {
        skip: from,
        count: 0,
    };
    match l {
        Listing::Model => counted(append_model(deck, elements, model, out, w)),
        Listing::Trees => counted(append_trees(deck, elements, model, out, w)),
        Listing::Log => counted(append_log(log, out, w)),
    }
}

fn print_listing(
    l: Listing,
    deck: &[u8],
    schema: &[u64],
    elements: &[u64],
    model: &[u64],
    log: &[u64],
    from: usize,
    out: &mut [u8],
    answer: &mut [u64],
) -> u64
    ensures { record { answer = numbered result answer.new; buffer = out.new }
        ≡ numbered_text (listing_is l) deck.now schema.now elements.now model.now log.now
        from out.old answer.old }
{
    if answer.len() != ANSWER_SIZE {
        return WRONG_SIZE;
    }
    let n = listing_numbers(l, deck, schema, elements, model, log, from, out);
    write_numbers(answer, n)
}

// The model's E and C lines.
#[unsafe(no_mangle)]
pub extern "C" fn zapelaritz_print_model(
    deck: &[u8],
    schema: &[u64],
    elements: &[u64],
    model: &[u64],
    log: &[u64],
    from: usize,
    out: &mut [u8],
    answer: &mut [u64],
) -> u64
    ensures { record { answer = numbered result answer.new; buffer = out.new }
        ≡ numbered_text model_text deck.now schema.now elements.now model.now log.now
        from out.old answer.old }
{
    print_listing(
        Listing::Model,
        deck,
        schema,
        elements,
        model,
        log,
        from,
        out,
        answer,
    )
}

// The M line and the model, then the trees that wait, each behind its B line.
#[unsafe(no_mangle)]
pub extern "C" fn zapelaritz_print_trees(
    deck: &[u8],
    schema: &[u64],
    elements: &[u64],
    model: &[u64],
    log: &[u64],
    from: usize,
    out: &mut [u8],
    answer: &mut [u64],
) -> u64
    ensures { record { answer = numbered result answer.new; buffer = out.new }
        ≡ numbered_text trees_text deck.now schema.now elements.now model.now log.now
        from out.old answer.old }
{
    print_listing(
        Listing::Trees,
        deck,
        schema,
        elements,
        model,
        log,
        from,
        out,
        answer,
    )
}

// The log's length and its entries, oldest first.
#[unsafe(no_mangle)]
pub extern "C" fn zapelaritz_print_log(
    deck: &[u8],
    schema: &[u64],
    elements: &[u64],
    model: &[u64],
    log: &[u64],
    from: usize,
    out: &mut [u8],
    answer: &mut [u64],
) -> u64
    ensures { record { answer = numbered result answer.new; buffer = out.new }
        ≡ numbered_text log_text deck.now schema.now elements.now model.now log.now
        from out.old answer.old }
{
    print_listing(
        Listing::Log,
        deck,
        schema,
        elements,
        model,
        log,
        from,
        out,
        answer,
    )
}

// What the program prints for a deck; the count of bytes written.
#[unsafe(no_mangle)]
pub extern "C" fn zapelaritz_print_output(deck: &[u8], from: usize, out: &mut [u8]) -> usize
    ensures { record { count = result; buffer = out.new } ≡ print_from (output deck.now) from out.old }
{
    print_output(deck, from, out)
}

// What the program prints for a deck and a list of calls; the count of bytes written.
#[unsafe(no_mangle)]
pub extern "C" fn zapelaritz_print_calls(
    deck: &[u8],
    calls: &[u8],
    from: usize,
    out: &mut [u8],
) -> usize
    ensures { record { count = result; buffer = out.new }
        ≡ print_from (calls_output deck.now calls.now) from out.old }
{
    print_calls(deck, calls, from, out)
}
