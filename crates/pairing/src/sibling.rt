// Pairing: the first B sibling of A's name and key.
ghost use Rattle.std.specs.Prelude.{◌≡◌, ◌<◌};
ghost use Rattle.merge_rules.specs.Pairing.{same_key, sibling};
ghost use Rattle.pairing.specs.Lent.{fixed_of, model_in, element_count};
ghost use Rattle.pairing.specs.Actions.{Listed};
ghost use Rattle.pairing.specs.Keys.{key_is, KeyIn, Keys, is_name, key_by, FindsChild, KeyMarks, has_key, span_of, Candidates};

use crate::keys::{KeyKind, key_of, span_of};
use crate::lent::Tables;
use crate::marks::{key_mark, next_marked};
use tables::elements::element_name;
use tables::numbers::{Element, Name};
use tables::text::{Place, same_string};

pub fn same_key(deck: &[u8], a: Option<Place>, b: Option<Place>) -> bool
    requires key_in { KeyIn deck.now a }
    requires key_in_2 { KeyIn deck.now b }
    ensures { result ≡ same_key (key_is deck.now a) (key_is deck.now b) }
{
    match (a, b) {
        (Some(p), Some(q)) => same_string(p, q, deck),
        (None, None) => true,
        _ => false,
    }
}

// Where the bytes of b's key start, if its name, and the key's kind and size, are those sought.
fn candidate_at(
    tables: &Tables,
    kind: KeyKind,
    n: Name,
    key: Option<Place>,
    b: Element,
) -> Option<usize>
    requires key_in { KeyIn tables.now.deck.now key }
    requires b_in_bounds { b.0 < element_count tables.now }
    ensures { let x = fixed_of tables.now in
        let key_in = key_by (is_name kind) x (model_in tables.now) in
        Candidates x.deck (span_of key) (has_key x key_in n.0 (key_is x.deck key) b.0) result }
{
    let m = element_name(tables.elements, b);
    if m != n {
        return None;
    }
    let k = key_of(tables, kind, b);
    match (k, key) {
        (Some(q), Some(p)) if q.size == p.size => Some(q.start),
        (None, None) => Some(0),
        _ => None,
    }
}

// Sibling by sibling and byte by byte, where the marks are equal; `key` is A's.
pub fn sibling(
    tables: &Tables,
    kind: KeyKind,
    second: &[u16],
    marks: &[u16],
    a: Element,
    key: Option<Place>,
) -> Option<Element>
    requires listed { Listed (element_count tables.now) second.now }
    requires key_marks { KeyMarks (key_by (is_name kind) (fixed_of tables.now) (model_in tables.now)) second.now marks.now }
    requires a_in_bounds { a.0 < element_count tables.now }
    requires keys { Keys tables.now.deck.now key (key_by (is_name kind) (fixed_of tables.now) (model_in tables.now) a.0) }
    ensures { let x = fixed_of tables.now in
        FindsChild (element_count tables.now) result (sibling x (key_by (is_name kind) x (model_in tables.now)) second.now a.0) }
{
    let n = element_name(tables.elements, a);
    let deck = tables.deck;
    let mark = key_mark(deck, key);
    let span = span_of(key);
    let start = span.start;
    let size = span.size;
    let mut k: usize = 0;
    // No `for`: the labelled outer loop and the inner one are those of document 01.
    'siblings: loop {
        let at = next_marked(marks, k, mark);
        if second.len() <= at {
            break None;
        }
        k = at + 1;
        let b = Element(second[at] as usize);
        let Some(s) = candidate_at(tables, kind, n, key, b) else {
            continue;
        };
        for j in 0..size {
            if deck[s + j] != deck[start + j] {
                continue 'siblings;
            }
        }
        break Some(b);
    }
}
