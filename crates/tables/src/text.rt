// Texts: an enum number, a string of the deck, a whole number, a float.

ghost use Rattle.std.specs.Prelude.{◌≡◌, ◌+◌, ◌≤◌, length, take, drop};
ghost use Rattle.std.specs.Float.{binary64};
ghost use Rattle.std.specs.Float.Ieee.{of_bits};
ghost use Rattle.tables.specs.Lists.{same_list};
ghost use Rattle.tables.specs.Texts.{text_kind, text_value, text_from, stored_is, StoredFits, value_of, place_in, text_in, bytes_at, place_of, same_floats, same_values};

use crate::limits::STRING_LIMIT;

// A string of the deck: its first byte's place, and its length.
#[derive(Clone, Copy)]
pub struct Place {
    pub start: usize,
    pub size: usize,
}

// An enum of its own beside StoredText: an f64 keeps no pattern of a NaN, so that a table's float is its bits.
#[derive(Clone, Copy)]
pub enum Text {
    Number(u64),
    Str(Place),
    Whole(u64),
    Float(f64),
}

// The float of 64 bits; every pattern of a NaN gives the one NaN.
pub fn float_of(bits: u64) -> f64
    ensures { result ≡ of_bits binary64 bits }
{
    if 0x7ff0_0000_0000_0000 < bits % 0x8000_0000_0000_0000 {
        0.0 / 0.0
    } else {
        f64::from_bits(bits)
    }
}

// A text as a table holds it: a float by its bits.
#[derive(Clone, Copy)]
pub enum StoredText {
    Number(u64),
    Str(Place),
    Whole(u64),
    Float(u64),
}

impl StoredText {
    // The text that a table holds as kind and value, two cells that are read together; none is refused here.
    pub fn from_cells(kind: u64, value: u64) -> StoredText
        ensures is { stored_is result ≡ text_from kind value }
        ensures fits { StoredFits result }
    {
        match kind {
            0 => StoredText::Number(value),
            1 => StoredText::Str(Place {
                start: (value / STRING_LIMIT) as usize,
                size: (value % STRING_LIMIT) as usize,
            }),
            2 => StoredText::Whole(value),
            _ => StoredText::Float(value),
        }
    }

    pub fn kind(self) -> u64
        ensures { result ≡ text_kind (stored_is self) }
    {
        match self {
            StoredText::Number(_) => 0,
            StoredText::Str(_) => 1,
            StoredText::Whole(_) => 2,
            StoredText::Float(_) => 3,
        }
    }

    pub fn value(self) -> u64
        requires { StoredFits self }
        ensures { result ≡ text_value (stored_is self) }
    {
        match self {
            StoredText::Number(n) => n,
            StoredText::Str(p) => p.start as u64 * STRING_LIMIT + p.size as u64,
            StoredText::Whole(n) => n,
            StoredText::Float(bits) => bits,
        }
    }
}

// The text by which a stored one is compared.
pub fn text_of(t: StoredText) -> Text
    ensures { result ≡ value_of (stored_is t) }
{
    match t {
        StoredText::Number(n) => Text::Number(n),
        StoredText::Str(p) => Text::Str(p),
        StoredText::Whole(n) => Text::Whole(n),
        StoredText::Float(bits) => Text::Float(float_of(bits)),
    }
}

// Both are NaN, or they compare equal.
pub fn same_float(x: f64, y: f64) -> bool
    ensures { result ≡ same_floats x y }
{
    if x != x {
        return y != y;
    }
    x == y
}

// The n bytes from place a on are those from place b on. No way out at the first that differs: so the compiler takes several at a time.
fn same_bytes(deck: &[u8], a: usize, b: usize, n: usize) -> bool
    requires { (a + n ≤ length deck.now) × (b + n ≤ length deck.now) }
    ensures { result ≡ same_list (take n (drop a deck.now)) (take n (drop b deck.now)) }
{
    let mut same = true;
    for i in 0..n {
        same = same & (deck[a + i] == deck[b + i]);
    }
    same
}

// The strings are equal, byte by byte.
pub fn same_string(p: Place, q: Place, deck: &[u8]) -> bool
    requires { place_in deck.now p × place_in deck.now q }
    ensures { result ≡ same_list (bytes_at deck.now (place_of p)) (bytes_at deck.now (place_of q)) }
{
    p.size == q.size && same_bytes(deck, p.start, q.start, q.size)
}

// The texts are equal: of one kind, with equal values.
pub fn same_text(a: Text, b: Text, deck: &[u8]) -> bool
    requires { text_in deck.now a × text_in deck.now b }
    ensures { result ≡ same_values deck.now a b }
{
    match (a, b) {
        (Text::Number(x), Text::Number(y)) => x == y,
        (Text::Str(p), Text::Str(q)) => same_string(p, q, deck),
        (Text::Whole(x), Text::Whole(y)) => x == y,
        (Text::Float(x), Text::Float(y)) => same_float(x, y),
        _ => false,
    }
}
