// A line of a list of calls.
ghost use Rattle.std.specs.Prelude.{List, Option, Some, ◌≡◌, ℕ, ◌≤◌, length};
ghost use Rattle.std.proofs.Math.Option.{some};
ghost use Rattle.tables.specs.Lists.{same_list};
ghost use Rattle.deck.specs.Deck.{field};
ghost use Rattle.deck.specs.Answers.{part_at, fields_of, Placed, num_is};
ghost use Rattle.merge_rules.specs.CallLists.{word_field, line_merge, line_rollback, line_range, line_alone, by_word, read_request};
ghost use Rattle.merge_rules.specs.CallLists as rules;
ghost use Rattle.requests.specs.Requests.{request_is, only_number};

use deck::fields::WORD_LIMIT;
use deck::lines::{Fields, bytes_of, number_at, split};

// What a line asks for.
#[derive(Clone, Copy)]
pub enum Request {
    Merge(u64),
    Rollback(u64),
    Range {
        element: u64,
        name: u64,
        version: u64,
    },
    Model,
    Trees,
    Log,
}

pub fn same_word(s: &[u8], word: &[u8]) -> bool
    ensures { result ≡ same_list s.now word.now }
{
    s == word
}

// The first field is this word.
fn begins_with(calls: &[u8], f: Fields, word: &[u8]) -> bool
    requires { Placed calls.now f }
    ensures { result ≡ same_list (field (fields_of calls.now f) 0).bytes word.now }
{
    same_word(bytes_of(calls, f, 0), word)
}

// Field i as a number of 64 bits.
pub fn word_at(calls: &[u8], f: Fields, i: usize) -> Option<u64>
    requires { Placed calls.now f }
    ensures { num_is result ≡ word_field (field (fields_of calls.now f) i) }
{
    number_at(calls, f, i, 10, WORD_LIMIT)
}

// The one number of a line with a word before it and nothing behind.
fn only_number(calls: &[u8], f: Fields) -> Option<u64>
    requires { Placed calls.now f }
    ensures { num_is result ≡ only_number (fields_of calls.now f) }
{
    let n = word_at(calls, f, 1)?;
    (f.count == 2).then_some(n)
}

// `range,element,name,version`
fn line_range(calls: &[u8], f: Fields) -> Option<Request>
    requires { Placed calls.now f }
    ensures { request_is result ≡ line_range (fields_of calls.now f) }
{
    let element = word_at(calls, f, 1)?;
    let name = word_at(calls, f, 2)?;
    let version = word_at(calls, f, 3)?;
    (f.count == 4).then_some(Request::Range {
        element,
        name,
        version,
    })
}

// `model`, `trees`, `log`
fn line_alone(f: Fields, r: Request) -> Option<Request>
    ensures { (calls : List ℕ) → Placed calls f → (q : rules.Request) → request_is (Some r) ≡ some q
        → request_is result ≡ line_alone q (fields_of calls f) }
{
    (f.count == 1).then_some(r)
}

// The line of its first word.
fn by_word(calls: &[u8], f: Fields) -> Option<Request>
    requires { Placed calls.now f }
    ensures { request_is result ≡ by_word (fields_of calls.now f) }
{
    // No match on the bytes: the check takes it apart byte by byte, into 31 places where no word is met.
    if begins_with(calls, f, b"merge") {
        return Some(Request::Merge(only_number(calls, f)?));
    }
    if begins_with(calls, f, b"rollback") {
        return Some(Request::Rollback(only_number(calls, f)?));
    }
    if begins_with(calls, f, b"range") {
        return line_range(calls, f);
    }
    if begins_with(calls, f, b"model") {
        return line_alone(f, Request::Model);
    }
    if begins_with(calls, f, b"trees") {
        return line_alone(f, Request::Trees);
    }
    if begins_with(calls, f, b"log") {
        return line_alone(f, Request::Log);
    }
    None
}

// The line between two places, read by its fields; none for a line of another form.
pub fn read_request(calls: &[u8], start: usize, end: usize) -> Option<Request>
    requires { (start ≤ end) × (end ≤ length calls.now) }
    ensures { request_is result ≡ read_request (part_at calls.now start end) }
{
    let f = split(calls, start, end);
    by_word(calls, f)
}
