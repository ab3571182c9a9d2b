// Pairing: texts, item names and definitions, by which elements are compared. A key is an item name or a definition: the place of a string of the deck.
ghost use Rattle.std.specs.Prelude.{◌≡◌, ◌<◌, length, get_or};
ghost use Rattle.tables.specs.Records.{enum_number, text_of, list_of};
ghost use Rattle.tables.specs.ElementsTable.{elements_of, GoodElements};
ghost use Rattle.tables.specs.Texts.{value_of, place_of};
ghost use Rattle.schema_calls.specs.Calls.{Finds};
ghost use Rattle.merge_rules.specs.Pairing.{sole_text, string_of, sole_string, identifier, identifiable, item_name, definition_child, definition};
ghost use Rattle.pairing.specs.Lent.{fixed_of, model_in, element_count};
ghost use Rattle.pairing.specs.Keys.{Keys, is_name, key_by, FindsChild, span_of};

use crate::lent::Tables;
use tables::elements::{element_name, element_type, text_at};
use tables::model::{Item, item_at, list_length};
use tables::numbers::{Element, Name};
use tables::schema::type_named;
use tables::text::{Place, Text, text_of};

const SHORT_NAME: Name = Name(1);

const DEFINITION_REF: Name = Name(2);

// Which of the two an element's key is.
#[derive(Clone, Copy, PartialEq, Eq)]
pub enum KeyKind {
    ItemName,
    Definition,
}

// Text t of the table.
pub fn stored_text(elements: &[u64], t: usize) -> Text
    requires good_elements { GoodElements elements.now }
    requires t_in_bounds { t < length (elements_of elements.now).texts }
    ensures { result ≡ value_of (get_or (elements_of elements.now).texts t (enum_number 0)) }
{
    text_of(text_at(elements, t))
}

// The number of the text that is the element's only content item.
pub fn sole_text(tables: &Tables, e: Element) -> Option<usize>
    requires { e.0 < element_count tables.now }
    ensures { Finds (enum_number 0) (elements_of tables.now.elements.now).texts result (sole_text (fixed_of tables.now) (list_of (model_in tables.now) e.0)) }
{
    if list_length(tables.model, e) != 1 {
        return None;
    }
    match item_at(tables.model, e, 0) {
        Item::Child(_) => None,
        Item::Text(t) => Some(t),
    }
}

// Text t, if it is a string.
fn string_key(tables: &Tables, t: usize) -> Option<Place>
    requires { t < length (elements_of tables.now.elements.now).texts }
    ensures { Keys tables.now.deck.now result (string_of (fixed_of tables.now) (text_of (fixed_of tables.now) t)) }
{
    match stored_text(tables.elements, t) {
        Text::Str(p) => Some(p),
        _ => None,
    }
}

fn sole_string(tables: &Tables, e: Element) -> Option<Place>
    requires { e.0 < element_count tables.now }
    ensures { Keys tables.now.deck.now result (sole_string (fixed_of tables.now) (model_in tables.now) e.0) }
{
    let t = sole_text(tables, e)?;
    string_key(tables, t)
}

// The SHORT-NAME that is the element's first content item, where its type is named.
fn identifier(tables: &Tables, e: Element) -> Option<Element>
    requires { e.0 < element_count tables.now }
    ensures { FindsChild (element_count tables.now) result (identifier (fixed_of tables.now) (model_in tables.now) e.0) }
{
    let t = element_type(tables.elements, e);
    if !type_named(tables.schema, t) {
        return None;
    }
    if list_length(tables.model, e) == 0 {
        return None;
    }
    let Item::Child(c) = item_at(tables.model, e, 0) else {
        return None;
    };
    let n = element_name(tables.elements, c);
    if n != SHORT_NAME {
        return None;
    }
    Some(c)
}

pub fn is_identifiable(tables: &Tables, e: Element) -> bool
    requires { e.0 < element_count tables.now }
    ensures { result ≡ identifiable (fixed_of tables.now) (model_in tables.now) e.0 }
{
    identifier(tables, e).is_some()
}

// The element's first DEFINITION-REF child.
pub fn definition_child(tables: &Tables, e: Element) -> Option<Element>
    requires { e.0 < element_count tables.now }
    ensures { FindsChild (element_count tables.now) result (definition_child (fixed_of tables.now) (model_in tables.now) e.0) }
{
    for i in 0..list_length(tables.model, e) {
        let Item::Child(c) = item_at(tables.model, e, i) else {
            continue;
        };
        let n = element_name(tables.elements, c);
        if n == DEFINITION_REF {
            return Some(c);
        }
    }
    None
}

fn item_name(tables: &Tables, e: Element) -> Option<Place>
    requires { e.0 < element_count tables.now }
    ensures { Keys tables.now.deck.now result (item_name (fixed_of tables.now) (model_in tables.now) e.0) }
{
    let c = identifier(tables, e)?;
    sole_string(tables, c)
}

fn definition(tables: &Tables, e: Element) -> Option<Place>
    requires { e.0 < element_count tables.now }
    ensures { Keys tables.now.deck.now result (definition (fixed_of tables.now) (model_in tables.now) e.0) }
{
    let c = definition_child(tables, e)?;
    sole_string(tables, c)
}

// The item name, or the definition.
#[inline(always)]
pub fn key_of(tables: &Tables, kind: KeyKind, e: Element) -> Option<Place>
    requires { e.0 < element_count tables.now }
    ensures { Keys tables.now.deck.now result (key_by (is_name kind) (fixed_of tables.now) (model_in tables.now) e.0) }
{
    match kind {
        KeyKind::ItemName => item_name(tables, e),
        KeyKind::Definition => definition(tables, e),
    }
}

// By which of the two an element is compared: one that is identifiable by its item name.
pub fn compared_key(tables: &Tables, e: Element) -> KeyKind
    requires { e.0 < element_count tables.now }
    ensures { is_name result ≡ identifiable (fixed_of tables.now) (model_in tables.now) e.0 }
{
    if is_identifiable(tables, e) {
        KeyKind::ItemName
    } else {
        KeyKind::Definition
    }
}

// The place of a key; of a missing one, no byte.
pub fn span_of(key: Option<Place>) -> Place
    ensures { place_of result ≡ span_of key }
{
    key.unwrap_or(Place { start: 0, size: 0 })
}
