// Pairing: marks of 16 bits of the keys of B's children, read once for a level. Equal keys have equal marks.
ghost use Rattle.std.specs.Prelude.{false, ◌≡◌, ◌+◌, ◌-◌, ◌<◌, ◌≤◌, length, get_or, take};
ghost use Rattle.pairing.specs.Lent.{fixed_of, model_in, element_count};
ghost use Rattle.pairing.specs.Actions.{Listed};
ghost use Rattle.pairing.specs.Keys.{key_is, KeyIn, is_name, key_by, key_mark, NoMark};
ghost use Rattle.pairing.specs.Walks.{second_children, WritesMarks, MarkRoom, Marked};

use crate::keys::{KeyKind, key_of, span_of};
use crate::lent::Tables;
use crate::plan::Sides;
use tables::numbers::Element;
use tables::text::Place;

// So many marks are looked at together.
const BLOCK: usize = 16;

pub fn key_mark(deck: &[u8], key: Option<Place>) -> u16
    requires { KeyIn deck.now key }
    ensures { result ≡ key_mark (key_is deck.now key) }
{
    let span = span_of(key);
    let bytes = &deck[span.start..span.start + span.size];
    let mut h: u64 = 0;
    for b in bytes {
        h = (h * 33 + *b as u64) % 65536;
    }
    h as u16
}

// The marks of one kind of key of B's children, from the place `to` on.
fn mark_keys(tables: &Tables, kind: KeyKind, work: &mut [u16], s: Sides, to: usize)
    requires listed { Listed (element_count tables.now) (second_children s work.old) }
    requires start_le_end { (s.start ≤ s.end) × (s.end ≤ to) × (to + (s.end - s.start) ≤ length work.old) }
    ensures { WritesMarks (key_by (is_name kind) (fixed_of tables.now) (model_in tables.now)) s to work.old work.new }
{
    let start = s.start;
    let n = s.end - start;
    for k in 0..n {
        let b = Element(work[start + k] as usize);
        let key = key_of(tables, kind, b);
        let at = to + k;
        work[at] = key_mark(tables.deck, key);
    }
}

// The marks of the item names of B's children behind their numbers, and behind these the marks of their definitions.
pub fn mark_children(tables: &Tables, work: &mut [u16], s: Sides)
    requires listed { Listed (element_count tables.now) (second_children s work.old) }
    requires mark_room { MarkRoom s work.old }
    ensures marked { Marked (fixed_of tables.now) (model_in tables.now) s work.new }
    ensures work_unchanged { take s.end work.new ≡ take s.end work.old }
{
    let names = s.end;
    let definitions = names + (names - s.start);
    mark_keys(tables, KeyKind::ItemName, work, s, names);
    mark_keys(tables, KeyKind::Definition, work, s, definitions);
}

// Whether the mark is among them. No way out at the first: so the compiler takes several at a time.
fn any_marked(marks: &[u16], mark: u16) -> bool
    ensures { result ≡ false → NoMark marks.now mark 0 (length marks.now) }
{
    let mut found = false;
    for m in marks {
        found = found | (*m == mark);
    }
    found
}

// Blocks without the mark are passed over.
fn skip_marks(marks: &[u16], from: usize, mark: u16) -> usize
    requires { from ≤ length marks.now }
    ensures { NoMark marks.now mark from result }
{
    let mut k = from;
    // No `for`: it passes a block at a time, and the place of the block that has the mark is the answer.
    while k + BLOCK <= marks.len() {
        let end = k + BLOCK;
        if any_marked(&marks[k..end], mark) {
            return k;
        }
        k = end;
    }
    k
}

// The first place of the mark from there on, or the end.
pub fn next_marked(marks: &[u16], from: usize, mark: u16) -> usize
    requires { from ≤ length marks.now }
    ensures no_mark { NoMark marks.now mark from result }
    ensures result_value { result < length marks.now → get_or marks.now result 0 ≡ mark }
{
    for k in skip_marks(marks, from, mark)..marks.len() {
        if marks[k] == mark {
            return k;
        }
    }
    marks.len()
}
