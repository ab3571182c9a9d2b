// The answers of the calls as numbers.
ghost use Rattle.std.specs.Prelude.{◌≡◌};
ghost use Rattle.load.specs.LoadCall.{load_answer};
ghost use Rattle.merge_log.specs.Answers.{refusal_is};
ghost use Rattle.merge.specs.Calls.{range_answer_is, merge_answer_is, rollback_answer_is};
ghost use Rattle.answer_numbers.specs.Numbers.{numbered, numbers_is, by_answer, refused_by0, accept, refuse, refusal_numbers, error_numbers, load_numbers, refused_answer, merge_numbers, range_numbers, rollback_numbers, mark_numbers};

use insert_range::range::Bounds;
use load::refusals::LoadError;
use merge::calls::CallError;
use merge::counts::Counts;
use merge_log::refusals::{Refusal, refusal_fields};
use state_test::state::lent_tables_pass;
use tables::log::log_length;

pub const ANSWER_SIZE: usize = 4;

// The code of an accepted call; that of a refused one is the refusal's number.
pub const ACCEPTED: u64 = 255;

// The code where the lent answer, a table, has a wrong size.
pub const WRONG_SIZE: u64 = 0;

// The four cells of the answer that C lends, and the code that it is handed: so numbers and no enum.
#[derive(Clone, Copy)]
pub struct Numbers {
    pub code: u64,
    pub first: u64,
    pub second: u64,
    pub third: u64,
    pub fourth: u64,
}

pub fn accepted(first: u64, second: u64, third: u64, fourth: u64) -> Numbers
    ensures { numbers_is result ≡ accept first second third fourth }
{
    Numbers {
        code: ACCEPTED,
        first,
        second,
        third,
        fourth,
    }
}

pub fn refused(number: u64, second: u64, third: u64) -> Numbers
    ensures { numbers_is result ≡ refuse number second third }
{
    Numbers {
        code: number,
        first: number,
        second,
        third,
        fourth: 0,
    }
}

// The numbers into a lent answer; the code.
pub fn write_numbers(answer: &mut [u64], n: Numbers) -> u64
    ensures { numbered result answer.new ≡ by_answer answer.old (numbers_is n) (refused_by0 answer.old) }
{
    if answer.len() != ANSWER_SIZE {
        return WRONG_SIZE;
    }
    answer.copy_from_slice(&[n.first, n.second, n.third, n.fourth]);
    n.code
}

#[tactic(auto, unfolding(crate::specs::Numbers::refusal_numbers, crate::specs::Numbers::or_zero))]
fn refusal_numbers(x: Refusal) -> Numbers
    ensures { numbers_is result ≡ refusal_numbers (refusal_is x) }
{
    let f = refusal_fields(x);
    refused(f.number, f.element.unwrap_or(0), f.name.unwrap_or(0))
}

// Why a call is not done; refusal 0 has neither element nor name.
fn error_numbers(e: CallError) -> Numbers
    ensures { numbers_is result ≡ error_numbers e }
{
    match e {
        CallError::BadTables => refused(0, 0, 0),
        CallError::Refused(x) => refusal_numbers(x),
    }
}

// Why a load is not done, as C is handed it: a refusal of any number, at any line.
#[derive(Clone, Copy, PartialEq, Eq)]
pub struct LoadRefused {
    pub number: u64,
    pub line: u64,
}

impl From<LoadError> for LoadRefused {
    ghost use Rattle.std.specs.Prelude.{◌≡◌};
    ghost use Rattle.answer_numbers.specs.Numbers.{load_refused};

    ghost from_gives = { λ e r. r ≡ load_refused e };

    fn from(e: LoadError) -> LoadRefused {
        LoadRefused {
            number: e.refusal.number(),
            line: e.line,
        }
    }
}

#[tactic(auto, unfolding(crate::specs::Numbers::load_numbers, crate::specs::Numbers::refused_answer))]
pub fn load_numbers(a: Result<(), LoadRefused>) -> Numbers
    ensures { numbers_is result ≡ load_numbers (refused_answer a) }
{
    match a {
        Ok(()) => accepted(0, 0, 0, 0),
        Err(r) => refused(r.number, r.line, 0),
    }
}

// The numbers of what `load` answers.
#[tactic(auto, unfolding(crate::specs::Numbers::refused_answer, load::specs::LoadCall::load_answer))]
pub fn loaded_numbers(a: Result<(), LoadError>) -> Numbers
    ensures { numbers_is result ≡ load_numbers (load_answer a) }
{
    match a {
        Ok(()) => load_numbers(Ok(())),
        Err(e) => load_numbers(Err(e.into())),
    }
}

#[tactic(auto, unfolding(crate::specs::Numbers::merge_numbers))]
pub fn merge_numbers(a: Result<Counts, CallError>) -> Numbers
    ensures { numbers_is result ≡ merge_numbers (merge_answer_is a) }
{
    match a {
        Ok(c) => accepted(
            c.imports as u64,
            c.restrictions as u64,
            c.extensions as u64,
            0,
        ),
        Err(e) => error_numbers(e),
    }
}

#[tactic(auto, unfolding(crate::specs::Numbers::range_numbers))]
pub fn range_numbers(a: Result<Bounds, CallError>) -> Numbers
    ensures { numbers_is result ≡ range_numbers (range_answer_is a) }
{
    match a {
        Ok(bounds) => accepted(bounds.first as u64, bounds.last as u64, 0, 0),
        Err(e) => error_numbers(e),
    }
}

#[tactic(auto, unfolding(crate::specs::Numbers::rollback_numbers))]
pub fn rollback_numbers(a: Result<usize, CallError>) -> Numbers
    ensures { numbers_is result ≡ rollback_numbers (rollback_answer_is a) }
{
    match a {
        Ok(n) => accepted(n as u64, 0, 0, 0),
        Err(e) => error_numbers(e),
    }
}

// The mark of now: the log's length.
pub fn mark_numbers(
    deck: &[u8],
    schema: &[u64],
    elements: &[u64],
    model: &[u64],
    log: &[u64],
) -> Numbers
    ensures { numbers_is result ≡ mark_numbers deck.now schema.now elements.now model.now log.now }
{
    if !lent_tables_pass(deck, schema, elements, model, log) {
        return refused(0, 0, 0);
    }
    accepted(log_length(log) as u64, 0, 0, 0)
}
