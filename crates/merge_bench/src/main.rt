// Merges the waiting tree of a file of each deck that its arguments name, as often as the latest number among the arguments says, and prints
// the answer and how often the merge was accepted. The number before the latest is the file; both are 1 at first. The deck is loaded once, and model and
// log are put back before each merge, so that a file that does not wait measures this and the test of the tables alone. Time is taken from
// outside.
#![tactic(auto)]

ghost use Rattle.std.specs.Prelude.{◌≡◌, ◌≤◌, length};

use deck::fields::number;
use inputs::{argument, read_all};
use load::load::load;
use merge::calls::{CallError, merge};
use merge::counts::Counts;
use merge_log::refusals::refusal_fields;
use std::fs::File;
use std::io;
use std::io::{ErrorKind, Read};
use std::rt::{Env, Files};
use tables::elements::ELEMENTS_SIZE;
use tables::limits::DECK_LIMIT;
use tables::log::LOG_SIZE;
use tables::model::MODEL_SIZE;
use tables::schema::SCHEMA_SIZE;

// Which file is merged, and how often.
#[derive(Clone, Copy)]
struct Work {
    file: u64,
    times: u64,
}

// The merge on model and log as they were loaded.
fn merge_anew(
    deck: &[u8],
    schema: &[u64],
    elements: &[u64],
    old_model: &[u64],
    old_log: &[u64],
    model: &mut [u64],
    log: &mut [u64],
    file: u64,
) -> Result<Counts, CallError>
    requires old_model_len { length old_model.now ≡ length model.old }
    requires old_log_len { length old_log.now ≡ length log.old }
{
    model.copy_from_slice(old_model);
    log.copy_from_slice(old_log);
    merge(deck, schema, elements, model, log, file)
}

// How many of so many merges are accepted.
fn merge_often(
    deck: &[u8],
    schema: &[u64],
    elements: &[u64],
    old_model: &[u64],
    old_log: &[u64],
    model: &mut [u64],
    log: &mut [u64],
    file: u64,
    times: u64,
) -> u64
    requires old_model_len { length old_model.now ≡ length model.old }
    requires old_log_len { length old_log.now ≡ length log.old }
{
    let mut n: u64 = 0;
    for _ in 0..times {
        if merge_anew(deck, schema, elements, old_model, old_log, model, log, file).is_ok() {
            n += 1;
        }
    }
    n
}

fn answer(rt: &impl Print, a: Result<Counts, CallError>) -> io::Result<()> {
    match a {
        Ok(c) => print!(rt; "merged,{},{},{}", c.imports, c.restrictions, c.extensions),
        Err(CallError::BadTables) => print!(rt; "refused,0"),
        Err(CallError::Refused(r)) => print!(rt; "refused,{}", refusal_fields(r).number),
    }
}

fn merge_deck(rt: &impl Print, deck: &[u8], file: u64, times: u64) -> io::Result<()> {
    let mut schema = [0u64; SCHEMA_SIZE];
    let mut elements = [0u64; ELEMENTS_SIZE];
    let mut old_model = [0u64; MODEL_SIZE];
    let mut old_log = [0u64; LOG_SIZE];
    let mut model = [0u64; MODEL_SIZE];
    let mut log = [0u64; LOG_SIZE];
    // A refused deck leaves tables of zeros; the merge answers for them.
    let _ = load(
        deck,
        &mut schema,
        &mut elements,
        &mut old_model,
        &mut old_log,
    );
    answer(
        rt,
        merge_anew(
            deck, &schema, &elements, &old_model, &old_log, &mut model, &mut log, file,
        ),
    )?;
    rt.print(" accepted ")?;
    rt.println(merge_often(
        deck, &schema, &elements, &old_model, &old_log, &mut model, &mut log, file, times,
    ))
}

fn merge_open(rt: &impl Print, file: &mut impl Read, number: u64, times: u64) -> io::Result<()> {
    let mut deck = [0u8; DECK_LIMIT + 1];
    let n = read_all(file, &mut deck)?;
    merge_deck(rt, &deck[..n], number, times)
}

fn merge_file(
    rt: &(impl Files + Print + Eprint),
    name: &str,
    number: u64,
    times: u64,
) -> io::Result<()> {
    match File::open(rt, name) {
        Ok(mut file) => {
            print!(rt; "{name} ")?;
            merge_open(rt, &mut file, number, times)
        }
        Err(error) => eprintln!(rt; "{name}: {error}"),
    }
}

// What the word says, a deck or a number; what is asked of the decks behind it. Apart from load_bench's, which says why.
fn merge_word(rt: &(impl Files + Print + Eprint), word: &[u8], w: Work) -> io::Result<Work> {
    let v = number(word, 10, 1000000);
    match v {
        Some(m) => Ok(Work {
            file: w.times,
            times: m,
        }),
        None => match std::str::from_utf8(word) {
            Ok(name) => {
                merge_file(rt, name, w.file, w.times)?;
                Ok(w)
            }
            Err(_) => Err(io::Error::from(ErrorKind::InvalidInput)),
        },
    }
}

fn main(rt: HostRuntime) -> io::Result<()> {
    let mut w = Work { file: 1, times: 1 };
    let mut buf = [0u8; 4096];
    // A range, since there is no loop without end.
    for i in 1..usize::MAX {
        match argument(&rt, i, &mut buf)? {
            Some(word) => w = merge_word(&rt, word, w)?,
            None => return Ok(()),
        }
    }
    Ok(())
}
