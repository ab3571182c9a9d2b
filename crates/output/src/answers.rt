// Lines of answers, behind what a buffer holds.
ghost use Rattle.std.specs.Prelude.{List, [], ◌∷◌, ◌++◌, ◌≡◌, ℕ};
ghost use Rattle.tables.specs.Bytes.{bytes};
ghost use Rattle.merge_rules.specs.Calls.{merged, merge_refused, range_refused, rollback_refused};
ghost use Rattle.merge_rules.specs.CallLists.{range_line};
ghost use Rattle.merge_rules.specs.Program.{decimal_of, or_dash, line_of, answer_line, refused_deck};
ghost use Rattle.merge_rules.specs.TableCalls.{bad_tables, answered};
ghost use Rattle.merge_log.specs.Answers.{refusal_is};
ghost use Rattle.merge.specs.Calls.{counts_is, merge_answer_is, range_answer_is, rollback_answer_is};
ghost use Rattle.printing.specs.Buffers.{buffer_is, Appends};
ghost use Rattle.merge_log.specs.Refusals.{optional_is};
ghost use Rattle.output.specs.Answers.{refusal_text, error_text, error_number, merge_text, rollback_text, range_text};

use insert_range::range::Bounds;
use merge::calls::CallError;
use merge::counts::Counts;
use merge_log::refusals::{Refusal, refusal_fields};
use printing::buffer::{Written, append_byte, append_bytes, append_number};

// A word with its comma and a number with its own: the first two fields of a line.
fn append_head(out: &mut [u8], w: Written, word: &[u8], n: u64) -> Written
    ensures { Appends (buffer_is w out.old) (word.now ++ (decimal_of n ++ bytes ",")) (buffer_is result out.new) }
{
    let k = append_bytes(out, w, word);
    append_number(out, k, n, 10, b',')
}

// Two numbers, the last fields of a line.
fn append_tail(out: &mut [u8], w: Written, m: u64, n: u64) -> Written
    ensures { Appends (buffer_is w out.old) (line_of (decimal_of m ∷ decimal_of n ∷ [])) (buffer_is result out.new) }
{
    let k = append_number(out, w, m, 10, b',');
    append_number(out, k, n, 10, b'\n')
}

// `deck,number,line`
pub fn append_refused_deck(out: &mut [u8], w: Written, number: u64, line: u64) -> Written
    ensures { Appends (buffer_is w out.old) (refused_deck number line) (buffer_is result out.new) }
{
    let k = append_bytes(out, w, b"deck,");
    append_tail(out, k, number, line)
}

// ---- refusals

// A number, or `-`, and a byte behind it.
pub fn append_optional(out: &mut [u8], w: Written, n: Option<u64>, end: u8) -> Written
    ensures { Appends (buffer_is w out.old) (or_dash (optional_is n) ++ (end ∷ [])) (buffer_is result out.new) }
{
    match n {
        Some(x) => append_number(out, w, x, 10, end),
        None => {
            let k = append_byte(out, w, b'-');
            append_byte(out, k, end)
        }
    }
}

// A refusal's number, element and name.
fn append_refusal(out: &mut [u8], w: Written, x: Refusal) -> Written
    ensures { Appends (buffer_is w out.old) (refusal_text (refusal_is x)) (buffer_is result out.new) }
{
    let f = refusal_fields(x);
    let k = append_number(out, w, f.number, 10, b',');
    let l = append_optional(out, k, f.element, b',');
    append_optional(out, l, f.name, b'\n')
}

// Why a call is not done: the last three fields, of refusal 0 too.
fn append_error(out: &mut [u8], w: Written, e: CallError) -> Written
    ensures { Appends (buffer_is w out.old) (error_text e) (buffer_is result out.new) }
{
    match e {
        CallError::BadTables => append_bytes(out, w, b"0,-,-\n"),
        CallError::Refused(x) => append_refusal(out, w, x),
    }
}

// ---- merge

fn append_merged(out: &mut [u8], w: Written, file: u64, c: Counts) -> Written
    ensures { Appends (buffer_is w out.old) (answer_line file (merged (counts_is c))) (buffer_is result out.new) }
{
    let k = append_head(out, w, b"merged,", file);
    let l = append_number(out, k, c.imports as u64, 10, b',');
    append_tail(out, l, c.restrictions as u64, c.extensions as u64)
}

pub fn append_merge(out: &mut [u8], w: Written, file: u64, a: Result<Counts, CallError>) -> Written
    ensures { Appends (buffer_is w out.old) (merge_text file (merge_answer_is a)) (buffer_is result out.new) }
{
    match a {
        Ok(c) => append_merged(out, w, file, c),
        Err(e) => {
            let k = append_head(out, w, b"refused,", file);
            append_error(out, k, e)
        }
    }
}

// ---- rollback

// The number of a refusal, 0 too.
fn error_number(e: CallError) -> u64
    ensures { result ≡ error_number e }
{
    match e {
        CallError::BadTables => 0,
        CallError::Refused(x) => refusal_fields(x).number,
    }
}

pub fn append_rollback(
    out: &mut [u8],
    w: Written,
    mark: u64,
    a: Result<usize, CallError>,
) -> Written
    ensures { Appends (buffer_is w out.old) (rollback_text mark (rollback_answer_is a)) (buffer_is result out.new) }
{
    match a {
        Ok(n) => {
            let k = append_bytes(out, w, b"rolledback,");
            append_tail(out, k, mark, n as u64)
        }
        Err(e) => {
            let k = append_bytes(out, w, b"rollback-refused,");
            append_tail(out, k, mark, error_number(e))
        }
    }
}

// ---- range

// A word with its comma, and the three numbers that were asked for, each with its own.
fn append_asked(out: &mut [u8], w: Written, word: &[u8], e: u64, n: u64, v: u64) -> Written
    ensures { Appends (buffer_is w out.old) ((word.now ++ (decimal_of e ++ bytes ",")) ++ ((decimal_of n ++ bytes ",") ++ (decimal_of v ++ bytes ","))) (buffer_is result out.new) }
{
    let k = append_head(out, w, word, e);
    let l = append_number(out, k, n, 10, b',');
    append_number(out, l, v, 10, b',')
}

pub fn append_range(
    out: &mut [u8],
    w: Written,
    e: u64,
    n: u64,
    v: u64,
    a: Result<Bounds, CallError>,
) -> Written
    ensures { Appends (buffer_is w out.old) (range_text e n v (range_answer_is a)) (buffer_is result out.new) }
{
    match a {
        Ok(bounds) => {
            let k = append_asked(out, w, b"range,", e, n, v);
            append_tail(out, k, bounds.first as u64, bounds.last as u64)
        }
        Err(error) => {
            let k = append_asked(out, w, b"range-refused,", e, n, v);
            append_error(out, k, error)
        }
    }
}
