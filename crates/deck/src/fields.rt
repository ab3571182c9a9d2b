// Fields of a line: numbers, paths, texts.
ghost use Rattle.std.specs.Prelude.{◌≡◌, [], ◌∷◌, ◌++◌, ◌≤◌, ◌<◌, ◌^◌, length};
ghost use Rattle.deck.specs.Deck.{digit, plain, number, path_field, printable, by_letter, texts, text_s};
ghost use Rattle.deck.specs.Answers.{whole, part_at, Next, num_is, PathReads, TextReads};
ghost use Rattle.tables.specs.Limits.{deck_limit, path_limit};
ghost use Rattle.tables.specs.Lists.{all_of};
ghost use Rattle.tables.specs.Paths.{parts_of};

use tables::limits::{ENUM_LIMIT, PART_LIMIT};
use tables::path::Path;
use tables::text::{Place, StoredText};

// The largest number of 64 bits.
pub const WORD_LIMIT: u64 = 0xffff_ffff_ffff_ffff;

// The worth of a digit; 16, as the rule has it, where the byte is none.
pub fn digit(b: u8) -> u64
    ensures { result ≡ digit b }
{
    match b {
        b'0'..=b'9' => (b - b'0') as u64,
        b'a'..=b'f' => (b - b'a') as u64 + 10,
        _ => 16,
    }
}

// No leading zeros, and at least one digit.
fn plain(s: &[u8]) -> bool
    ensures { result ≡ plain s.now }
{
    match s {
        [] | [b'0', _, ..] => false,
        _ => true,
    }
}

// A whole field as a number up to a largest one, without leading zeros.
pub fn number(s: &[u8], radix: u64, most: u64) -> Option<u64>
    requires { 0 < radix }
    ensures { num_is result ≡ number radix most (whole s.now) }
{
    if !plain(s) {
        return None;
    }
    let mut value: u64 = 0;
    for b in s {
        let d = digit(*b);
        if radix <= d || most < d || (most - d) / radix < value {
            return None;
        }
        value = value * radix + d;
    }
    Some(value)
}

// The first place in [at, end) with this byte, or the end. A loop: the place that `position` gives counts from `at`. Never inlined: where it is, the
// loop counts a dozen numbers of its caller too, and load takes a third longer.
#[inline(never)]
pub fn find_byte(s: &[u8], separator: u8, at: usize, end: usize) -> usize
    requires { (at ≤ end) × (end ≤ length s.now) }
    ensures { Next s.now separator at end result }
{
    for i in at..end {
        if s[i] == separator {
            return i;
        }
    }
    end
}

// The path with one more part behind its n parts. By hand, since a path is four fields.
fn with_part(p: Path, n: usize, v: u64) -> Path
    requires { (length (parts_of p) ≡ n) × (n < path_limit) × (v < 2 ^ 32) }
    ensures { parts_of result ≡ parts_of p ++ (v ∷ []) }
{
    match n {
        0 => Path(v + 1, 0, 0, 0),
        1 => Path(p.0, v + 1, 0, 0),
        2 => Path(p.0, p.1, v + 1, 0),
        _ => Path(p.0, p.1, p.2, v + 1),
    }
}

// The path of a field: 1 to so many parts, parted by dots.
pub fn path_field(deck: &[u8], start: usize, end: usize, most: usize) -> Option<Path>
    requires { (start ≤ end) × (end ≤ length deck.now) × (most ≤ path_limit) }
    ensures { PathReads result (path_field most (part_at deck.now start end)) }
{
    let mut p = Path(0, 0, 0, 0);
    let mut at = start;
    for n in 0..most {
        let e = find_byte(deck, b'.', at, end);
        let v = number(&deck[at..e], 10, PART_LIMIT)?;
        p = with_part(p, n, v);
        if end <= e {
            return Some(p);
        }
        at = e + 1;
    }
    None
}

// Every byte can be printed.
fn all_printable(s: &[u8]) -> bool
    ensures { result ≡ all_of printable s.now }
{
    for b in s {
        if *b < b' ' || b'~' < *b {
            return false;
        }
    }
    true
}

fn string_text(deck: &[u8], start: usize, end: usize) -> Option<StoredText>
    requires { (start ≤ end) × (end ≤ length deck.now) × (length deck.now ≤ deck_limit) }
    ensures { TextReads result (text_s (part_at deck.now start end)) }
{
    if !all_printable(&deck[start..end]) {
        return None;
    }
    Some(StoredText::Str(Place {
        start,
        size: end - start,
    }))
}

// The text of a value field, by the letter of its kind: e, s, u or f. A letter of 64 bits, as the rules have it.
pub fn text_field(deck: &[u8], letter: u64, start: usize, end: usize) -> Option<StoredText>
    requires { (start ≤ end) × (end ≤ length deck.now) × (length deck.now ≤ deck_limit) }
    ensures { TextReads result (by_letter texts letter (part_at deck.now start end)) }
{
    match letter {
        101 => Some(StoredText::Number(number(&deck[start..end], 10, ENUM_LIMIT)?)),
        115 => string_text(deck, start, end),
        117 => Some(StoredText::Whole(number(&deck[start..end], 10, WORD_LIMIT)?)),
        102 => Some(StoredText::Float(number(&deck[start..end], 16, WORD_LIMIT)?)),
        _ => None,
    }
}
