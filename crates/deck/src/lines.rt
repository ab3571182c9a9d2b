// Lines of a deck: where a line ends, its fields, and the row that they make.
ghost use Rattle.std.specs.Prelude.{◌≡◌, ℕ, ◌≤◌, ◌<◌, List, length};
ghost use Rattle.tables.specs.Limits.{deck_limit, path_limit};
ghost use Rattle.deck.specs.Deck.{fields, field, number, letter, path_field, text_fields, by_letter, kinds, read_line, line_t, line_g, line_s, line_f, line_m, line_b, line_e, line_c};
ghost use Rattle.deck.specs.Answers.{Next, part_at, fields_of, Placed, Splits, SpanOf, num_is, PathReads, TextReads, LineReads};

use crate::fields::{WORD_LIMIT, find_byte, number, path_field, text_field};
use tables::file_set::FileSet;
use tables::limits::{FILE_LIMIT, MASK_LIMIT, NAME_LIMIT, PATH_LIMIT, VERSION_LIMIT};
use tables::numbers::{FileNumber, Name, TypeNumber};
use tables::path::Path;
use tables::schema::{CHARACTERS, MIXED, Mult};
use tables::text::StoredText;

// The largest number of a type or depth field.
const NUMBER_LIMIT: u64 = 65535;

// The largest mask: every version.
pub const ALL_VERSIONS: u64 = MASK_LIMIT - 1;

// The largest file and the largest version.
const LAST_FILE: u64 = FILE_LIMIT - 1;

const LAST_VERSION: u64 = VERSION_LIMIT - 1;

// A group's path leaves room for a part of a row.
const GROUP_PATH_LIMIT: usize = PATH_LIMIT - 1;

// The first LF at or behind this place, or the deck's length.
pub fn line_end(deck: &[u8], at: usize) -> usize
    requires { at ≤ length deck.now }
    ensures { Next deck.now 10 at (length deck.now) result }
{
    find_byte(deck, b'\n', at, deck.len())
}

// Two places in the deck. A string of a table is a `Place`, with a size, as its cell has it.
#[derive(Clone, Copy)]
pub struct Span {
    pub start: usize,
    pub end: usize,
}

const NO_BYTES: Span = Span { start: 0, end: 0 };

// The places of a line's fields, as far as 8: no kind of line has more than 7. An array and a count, which can be copied.
#[derive(Clone, Copy)]
pub struct Fields {
    pub count: usize,
    pub spans: [Span; 8],
}

pub fn split(deck: &[u8], start: usize, end: usize) -> Fields
    requires { (start ≤ end) × (end ≤ length deck.now) }
    ensures { Splits deck.now (fields (part_at deck.now start end)) result }
{
    let mut spans = [NO_BYTES; 8];
    let mut at = start;
    for i in 0..8 {
        let e = find_byte(deck, b',', at, end);
        spans[i] = Span { start: at, end: e };
        if end <= e {
            return Fields {
                count: i + 1,
                spans,
            };
        }
        at = e + 1;
    }
    Fields { count: 8, spans }
}

// The places of field i; of no bytes where there is none.
pub fn places(f: Fields, i: usize) -> Span
    requires { f.count ≤ 8 }
    ensures { (deck : List ℕ) → Placed deck f → SpanOf deck (field (fields_of deck f) i) result }
{
    if i < f.count { f.spans[i] } else { NO_BYTES }
}

// The bytes of field i.
pub fn bytes_of(deck: &[u8], f: Fields, i: usize) -> &[u8]
    requires { Placed deck.now f }
    ensures { result.now ≡ (field (fields_of deck.now f) i).bytes }
{
    let p = places(f, i);
    &deck[p.start..p.end]
}

// Field i as a number.
pub fn number_at(deck: &[u8], f: Fields, i: usize, radix: u64, most: u64) -> Option<u64>
    requires { Placed deck.now f × (0 < radix) }
    ensures { num_is result ≡ number radix most (field (fields_of deck.now f) i) }
{
    number(bytes_of(deck, f, i), radix, most)
}

// The one byte of field i.
fn letter_at(deck: &[u8], f: Fields, i: usize) -> Option<u8>
    requires { Placed deck.now f }
    ensures { num_is result ≡ letter (field (fields_of deck.now f) i) }
{
    match bytes_of(deck, f, i) {
        [b] => Some(*b),
        _ => None,
    }
}

// Field i as a path.
fn path_at(deck: &[u8], f: Fields, i: usize, most: usize) -> Option<Path>
    requires { Placed deck.now f × (most ≤ path_limit) }
    ensures { PathReads result (path_field most (field (fields_of deck.now f) i)) }
{
    let p = places(f, i);
    path_field(deck, p.start, p.end, most)
}

// Fields 2 and 3 as a text.
fn text_at(deck: &[u8], f: Fields) -> Option<StoredText>
    requires { Placed deck.now f × (length deck.now ≤ deck_limit) }
    ensures { TextReads result (text_fields (field (fields_of deck.now f) 2) (field (fields_of deck.now f) 3)) }
{
    let kind = letter_at(deck, f, 2)?;
    let p = places(f, 3);
    text_field(deck, kind as u64, p.start, p.end)
}

// A T line: mode as its number.
#[derive(Clone, Copy)]
pub struct TypeCells {
    pub ty: TypeNumber,
    pub mode: u64,
    pub named: bool,
    pub split: u64,
}

// A G line.
#[derive(Clone, Copy)]
pub struct GroupCells {
    pub ty: TypeNumber,
    pub path: Path,
    pub mode: u64,
}

// An S line.
#[derive(Clone, Copy)]
pub struct RowCells {
    pub ty: TypeNumber,
    pub path: Path,
    pub name: Name,
    pub child: TypeNumber,
    pub mult: Mult,
    pub mask: u64,
}

// An F line.
#[derive(Clone, Copy)]
pub struct FileCells {
    pub file: FileNumber,
    pub version: u64,
}

// An E line.
#[derive(Clone, Copy)]
pub struct ElementCells {
    pub depth: u64,
    pub name: Name,
    pub set: FileSet,
}

// A C line.
#[derive(Clone, Copy)]
pub struct TextCells {
    pub depth: u64,
    pub text: StoredText,
}

#[derive(Clone, Copy)]
pub enum Line {
    T(TypeCells),
    G(GroupCells),
    S(RowCells),
    F(FileCells),
    M,
    B(FileNumber),
    E(ElementCells),
    C(TextCells),
}

// `T,type,mode,named,split`
fn line_t(deck: &[u8], f: Fields) -> Option<Line>
    requires { Placed deck.now f }
    ensures { LineReads result (line_t (fields_of deck.now f)) }
{
    let ty = number_at(deck, f, 1, 10, NUMBER_LIMIT)?;
    let mode = number_at(deck, f, 2, 10, CHARACTERS)?;
    let named = number_at(deck, f, 3, 10, 1)?;
    let split = number_at(deck, f, 4, 16, ALL_VERSIONS)?;
    if f.count != 5 {
        return None;
    }
    Some(Line::T(TypeCells {
        ty: TypeNumber(ty as usize),
        mode,
        named: named == 1,
        split,
    }))
}

// `G,type,path,mode`
fn line_g(deck: &[u8], f: Fields) -> Option<Line>
    requires { Placed deck.now f }
    ensures { LineReads result (line_g (fields_of deck.now f)) }
{
    let ty = number_at(deck, f, 1, 10, NUMBER_LIMIT)?;
    let path = path_at(deck, f, 2, GROUP_PATH_LIMIT)?;
    let mode = number_at(deck, f, 3, 10, MIXED)?;
    if f.count != 4 {
        return None;
    }
    Some(Line::G(GroupCells {
        ty: TypeNumber(ty as usize),
        path,
        mode,
    }))
}

// `S,type,path,name,child,mult,mask`
fn line_s(deck: &[u8], f: Fields) -> Option<Line>
    requires { Placed deck.now f }
    ensures { LineReads result (line_s (fields_of deck.now f)) }
{
    let ty = number_at(deck, f, 1, 10, NUMBER_LIMIT)?;
    let path = path_at(deck, f, 2, PATH_LIMIT)?;
    let name = number_at(deck, f, 3, 10, NAME_LIMIT)?;
    let child = number_at(deck, f, 4, 10, NUMBER_LIMIT)?;
    let mult = number_at(deck, f, 5, 10, 2)?;
    let mask = number_at(deck, f, 6, 16, ALL_VERSIONS)?;
    if f.count != 7 {
        return None;
    }
    if mask == 0 {
        return None;
    }
    Some(Line::S(RowCells {
        ty: TypeNumber(ty as usize),
        path,
        name: Name(name),
        child: TypeNumber(child as usize),
        mult: Mult::from_number(mult),
        mask,
    }))
}

// `F,file,version`
fn line_f(deck: &[u8], f: Fields) -> Option<Line>
    requires { Placed deck.now f }
    ensures { LineReads result (line_f (fields_of deck.now f)) }
{
    let file = number_at(deck, f, 1, 10, LAST_FILE)?;
    let version = number_at(deck, f, 2, 10, LAST_VERSION)?;
    if f.count != 3 {
        return None;
    }
    Some(Line::F(FileCells {
        file: FileNumber(file),
        version,
    }))
}

// `M`
fn line_m(f: Fields) -> Option<Line>
    ensures { (deck : List ℕ) → Placed deck f → LineReads result (line_m (fields_of deck f)) }
{
    if f.count != 1 {
        return None;
    }
    Some(Line::M)
}

// `B,file`
fn line_b(deck: &[u8], f: Fields) -> Option<Line>
    requires { Placed deck.now f }
    ensures { LineReads result (line_b (fields_of deck.now f)) }
{
    let file = number_at(deck, f, 1, 10, LAST_FILE)?;
    if f.count != 2 {
        return None;
    }
    Some(Line::B(FileNumber(file)))
}

// `E,depth,name,set`
fn line_e(deck: &[u8], f: Fields) -> Option<Line>
    requires { Placed deck.now f }
    ensures { LineReads result (line_e (fields_of deck.now f)) }
{
    let depth = number_at(deck, f, 1, 10, NUMBER_LIMIT)?;
    let name = number_at(deck, f, 2, 10, NAME_LIMIT)?;
    let set = number_at(deck, f, 3, 16, WORD_LIMIT)?;
    if f.count != 4 {
        return None;
    }
    Some(Line::E(ElementCells {
        depth,
        name: Name(name),
        set: FileSet::from_bits(set),
    }))
}

// `C,depth,kind,value`
fn line_c(deck: &[u8], f: Fields) -> Option<Line>
    requires { Placed deck.now f × (length deck.now ≤ deck_limit) }
    ensures { LineReads result (line_c (fields_of deck.now f)) }
{
    let depth = number_at(deck, f, 1, 10, NUMBER_LIMIT)?;
    let text = text_at(deck, f)?;
    if f.count != 4 {
        return None;
    }
    Some(Line::C(TextCells { depth, text }))
}

// The line of a kind's letter.
fn row(deck: &[u8], f: Fields, kind: u8) -> Option<Line>
    requires { Placed deck.now f × (length deck.now ≤ deck_limit) }
    ensures { LineReads result (by_letter kinds kind (fields_of deck.now f)) }
{
    match kind {
        b'T' => line_t(deck, f),
        b'G' => line_g(deck, f),
        b'S' => line_s(deck, f),
        b'F' => line_f(deck, f),
        b'M' => line_m(f),
        b'B' => line_b(deck, f),
        b'E' => line_e(deck, f),
        b'C' => line_c(deck, f),
        _ => None,
    }
}

// The line between two places, read by its fields.
pub fn read_line(deck: &[u8], start: usize, end: usize) -> Option<Line>
    requires { (start ≤ end) × (end ≤ length deck.now) × (length deck.now ≤ deck_limit) }
    ensures { LineReads result (read_line (part_at deck.now start end)) }
{
    let f = split(deck, start, end);
    let kind = letter_at(deck, f, 0)?;
    row(deck, f, kind)
}
