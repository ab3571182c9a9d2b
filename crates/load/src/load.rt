// Load: the lines in order, and the call on lent tables.
ghost use Rattle.std.specs.Prelude.{false, ◌≡◌, List, [], ℕ, ◌≤◌, length, replicate};
ghost use Rattle.tables.specs.Limits.{deck_limit};
ghost use Rattle.tables.specs.ElementsTable.{HoldsElements};
ghost use Rattle.tables.specs.LogTable.{encode_log};
ghost use Rattle.tables.specs.ModelTable.{HoldsModel};
ghost use Rattle.tables.specs.SchemaTable.{HoldsSchema};
ghost use Rattle.deck.specs.Answers.{line_is, line_fits};
ghost use Rattle.deck.specs.Load.{nothing, finish, load};
ghost use Rattle.load.specs.declared.progress.Kind.TheVariants.{T};
ghost use Rattle.load.specs.Lines.{open_limit, loading_of, line_result, GoodLoading, StepResult};
ghost use Rattle.load.specs.LoadCall.{tables_of, load_answer, load_result, load_into, load_call, sizes_fit, zeros, answer_is, Loads};

use crate::progress::{Kind, OPEN_LIMIT, Progress};
use crate::refusals::{LoadError, Refusal};
use crate::schema_lines::{load_f, load_g, load_s, load_t};
use crate::tree_lines::{load_b, load_c, load_e, load_m};
use deck::lines::Line;
use deck::reader::line_from;
use tables::elements::ELEMENTS_SIZE;
use tables::limits::DECK_LIMIT;
use tables::log::LOG_SIZE;
use tables::model::{MODEL_SIZE, clear};
use tables::schema::SCHEMA_SIZE;

// A line that was read, stored in the tables.
fn load_line(
    schema: &mut [u64],
    elements: &mut [u64],
    model: &mut [u64],
    p: Progress,
    line: Option<Line>,
) -> Result<Progress, Refusal>
    requires good_loading { GoodLoading p schema.old elements.old model.old }
    requires line_fits { line_fits line }
    ensures { StepResult p result schema.new elements.new model.new (line_result (loading_of p schema.old elements.old model.old) (line_is line)) }
{
    let Some(line) = line else {
        return Err(Refusal::Form);
    };
    match line {
        Line::T(c) => load_t(schema, p, c),
        Line::G(c) => load_g(schema, p, c),
        Line::S(c) => load_s(schema, p, c),
        Line::F(c) => load_f(schema, p, c),
        Line::M => load_m(p),
        Line::B(f) => load_b(schema, elements, model, p, f),
        Line::E(c) => load_e(schema, elements, model, p, c),
        Line::C(c) => load_c(schema, elements, model, p, c),
    }
}

// Before the first line.
fn start() -> Progress
    ensures { result ≡ record { latest = T; seen = false; due = false; depth = 0; above = replicate open_limit 0 } }
{
    Progress {
        latest: Kind::T,
        seen: false,
        due: false,
        depth: 0,
        above: [0usize; OPEN_LIMIT],
    }
}

// Behind the last line, n lines read.
fn finish(p: Progress, n: u64) -> Result<(), LoadError>
    ensures { (deck schema elements model : List ℕ) → answer_is result deck schema elements model ≡ finish deck n (loading_of p schema elements model) }
{
    if !p.seen || p.due {
        return Err(LoadError {
            refusal: Refusal::TreeRule,
            line: n,
        });
    }
    Ok(())
}

// All lines of the deck, into empty tables.
fn read_lines(
    deck: &[u8],
    schema: &mut [u64],
    elements: &mut [u64],
    model: &mut [u64],
) -> Result<(), LoadError>
    requires deck_len_bound { length deck.now ≤ deck_limit }
    requires holds_schema { HoldsSchema schema.old nothing.schema }
    requires holds_elements { HoldsElements elements.old nothing.elements }
    requires holds_model { HoldsModel model.old nothing.model }
    ensures { Loads result deck.now schema.new elements.new model.new (load deck.now) }
{
    let mut p = start();
    let mut at = 0;
    let mut n: u64 = 0;
    // No `for`: where a line ends is known once it is read.
    while at < deck.len() {
        let number = n + 1;
        let Some(next) = line_from(deck, at) else {
            return Err(LoadError {
                refusal: Refusal::Form,
                line: number,
            });
        };
        p = load_line(schema, elements, model, p, next.line).map_err(|refusal| LoadError {
            refusal,
            line: number,
        })?;
        n = number;
        at = next.behind;
    }
    finish(p, n)
}

// No table of a wrong size.
#[tactic(auto, unfolding(crate::specs::LoadCall::sizes_fit))]
fn sizes_fit(schema: &[u64], elements: &[u64], model: &[u64], log: &[u64]) -> bool
    ensures { result ≡ sizes_fit (tables_of schema.now elements.now model.now log.now) }
{
    schema.len() == SCHEMA_SIZE
        && elements.len() == ELEMENTS_SIZE
        && model.len() == MODEL_SIZE
        && log.len() == LOG_SIZE
}

fn clear_all(schema: &mut [u64], elements: &mut [u64], model: &mut [u64])
    ensures schema_after { schema.new ≡ zeros schema.old }
    ensures elements_after { elements.new ≡ zeros elements.old }
    ensures model_after { model.new ≡ zeros model.old }
{
    clear(schema);
    clear(elements);
    clear(model);
}

// A deck of any length, into empty tables.
fn load_deck(
    deck: &[u8],
    schema: &mut [u64],
    elements: &mut [u64],
    model: &mut [u64],
) -> Result<(), LoadError>
    requires holds_schema { HoldsSchema schema.old nothing.schema }
    requires holds_elements { HoldsElements elements.old nothing.elements }
    requires holds_model { HoldsModel model.old nothing.model }
    ensures { Loads result deck.now schema.new elements.new model.new (load deck.now) }
{
    if DECK_LIMIT < deck.len() {
        return Err(LoadError {
            refusal: Refusal::Limit,
            line: 0,
        });
    }
    read_lines(deck, schema, elements, model)
}

// The deck into empty tables, which are empty again where it is refused.
fn load_empty(
    deck: &[u8],
    schema: &mut [u64],
    elements: &mut [u64],
    model: &mut [u64],
) -> Result<(), LoadError>
    requires holds_schema { HoldsSchema schema.old nothing.schema }
    requires holds_elements { HoldsElements elements.old nothing.elements }
    requires holds_model { HoldsModel model.old nothing.model }
    ensures { (log : List ℕ) → log ≡ zeros log → log ≡ encode_log [] → load_result (load_answer result) schema.new elements.new model.new log ≡ load_into (tables_of schema.old elements.old model.old log) (load deck.now) }
{
    let r = load_deck(deck, schema, elements, model);
    if r.is_err() {
        clear_all(schema, elements, model);
    }
    r
}

// The deck into the tables, or all tables zero.
pub fn load(
    deck: &[u8],
    schema: &mut [u64],
    elements: &mut [u64],
    model: &mut [u64],
    log: &mut [u64],
) -> Result<(), LoadError>
    ensures { load_result (load_answer result) schema.new elements.new model.new log.new ≡ load_call deck.now (tables_of schema.old elements.old model.old log.old) }
{
    let fits = sizes_fit(schema, elements, model, log);
    clear_all(schema, elements, model);
    clear(log);
    if !fits {
        return Err(LoadError {
            refusal: Refusal::WrongSize,
            line: 0,
        });
    }
    load_empty(deck, schema, elements, model)
}
