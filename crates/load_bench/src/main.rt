// Loads each deck that its arguments name, and prints how often it was loaded: once, or as often as the latest number among the
// arguments says. Time is taken from outside.
#![tactic(auto)]

use deck::fields::number;
use inputs::{argument, read_all};
use load::load::load;
use std::fs::File;
use std::io;
use std::io::{ErrorKind, Read};
use std::rt::{Env, Files};
use tables::elements::ELEMENTS_SIZE;
use tables::limits::DECK_LIMIT;
use tables::log::LOG_SIZE;
use tables::model::MODEL_SIZE;
use tables::schema::SCHEMA_SIZE;

// How many of so many loads took the deck.
fn load_often(
    deck: &[u8],
    schema: &mut [u64],
    elements: &mut [u64],
    model: &mut [u64],
    log: &mut [u64],
    times: u64,
) -> u64 {
    let mut loaded: u64 = 0;
    for _ in 0..times {
        if load(deck, schema, elements, model, log).is_ok() {
            loaded += 1;
        }
    }
    loaded
}

fn load_deck(deck: &[u8], times: u64) -> u64 {
    let mut schema = [0u64; SCHEMA_SIZE];
    let mut elements = [0u64; ELEMENTS_SIZE];
    let mut model = [0u64; MODEL_SIZE];
    let mut log = [0u64; LOG_SIZE];
    load_often(
        deck,
        &mut schema,
        &mut elements,
        &mut model,
        &mut log,
        times,
    )
}

fn load_open(file: &mut impl Read, times: u64) -> io::Result<u64> {
    let mut deck = [0u8; DECK_LIMIT + 1];
    let n = read_all(file, &mut deck)?;
    Ok(load_deck(&deck[..n], times))
}

fn load_file(rt: &(impl Files + Print + Eprint), name: &str, times: u64) -> io::Result<()> {
    match File::open(rt, name) {
        Ok(mut file) => {
            print!(rt; "{name} loaded ")?;
            rt.println(load_open(&mut file, times)?)
        }
        Err(error) => eprintln!(rt; "{name}: {error}"),
    }
}

// What the word says, a deck or a number; how often the decks behind it are loaded. merge_bench has a function for each of these three too: what one
// word hands on to the next differs, so that one for both would need a closure and a type for it.
fn load_word(rt: &(impl Files + Print + Eprint), word: &[u8], times: u64) -> io::Result<u64> {
    let v = number(word, 10, 1000000);
    match v {
        Some(m) => Ok(m),
        None => match std::str::from_utf8(word) {
            Ok(name) => {
                load_file(rt, name, times)?;
                Ok(times)
            }
            Err(_) => Err(io::Error::from(ErrorKind::InvalidInput)),
        },
    }
}

fn main(rt: HostRuntime) -> io::Result<()> {
    let mut times: u64 = 1;
    let mut buf = [0u8; 4096];
    // A range, since there is no loop without end.
    for i in 1..usize::MAX {
        match argument(&rt, i, &mut buf)? {
            Some(word) => times = load_word(&rt, word, times)?,
            None => return Ok(()),
        }
    }
    Ok(())
}
