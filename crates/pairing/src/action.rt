// Pairing: what becomes of the cursor children.
ghost use Rattle.std.specs.Prelude.{false, List, ◌≡◌, ℕ, ◌<◌, length};
ghost use Rattle.tables.specs.Paths.{parts_of};
ghost use Rattle.tables.specs.SchemaTable.{schema_of, GoodSchema};
ghost use Rattle.deck.specs.Schema.{row_of_name};
ghost use Rattle.state_test.specs.StateTest.{fixed_in};
ghost use Rattle.merge_rules.specs.Pairing.{element_text, item_name, definition, same_key, same_texts, calc_identifiables_merge, calc_element_merge, path_of, action_by_path};
ghost use Rattle.pairing.specs.Lent.{fixed_of, model_in, element_count};
ghost use Rattle.pairing.specs.Actions.{Listed, Acts, Decides, Searches};
ghost use Rattle.pairing.specs.Keys.{KeyMarks};

use crate::keys::{KeyKind, compared_key, is_identifiable, key_of, sole_text, stored_text};
use crate::lent::Tables;
use crate::sibling::{same_key, sibling};
use schema_calls::calls::row_of_name;
use std::cmp::Ordering;
use tables::elements::element_name;
use tables::numbers::{Element, Name, TypeNumber};
use tables::path::Path;
use tables::schema::row_path;
use tables::text::same_text;

// Both cursors; A with a B sibling; A only; B only; refusal 6 with the A parent, which is one of the rule's actions too.
#[derive(Clone, Copy, PartialEq, Eq)]
pub enum Action {
    MergeEqual,
    MergeUnequal(Element),
    AOnly,
    BOnly,
    UnmergeableParent,
}

fn path_of(schema: &[u64], t: TypeNumber, n: Name) -> Path
    requires { GoodSchema schema.now }
    ensures { (deck elements : List ℕ) → parts_of result ≡ path_of (fixed_in deck schema.now elements) t.0 n.0 }
{
    let row = row_of_name(schema, t, n);
    match row {
        Some(i) => row_path(schema, i),
        None => Path(0, 0, 0, 0),
    }
}

// Names differ.
fn action_by_path(tables: &Tables, t: TypeNumber, a: Element, b: Element) -> Action
    requires a_in_bounds { a.0 < element_count tables.now }
    requires b_in_bounds { b.0 < element_count tables.now }
    ensures { Acts (element_count tables.now) result (action_by_path (fixed_of tables.now) t.0 a.0 b.0) }
{
    let p = path_of(tables.schema, t, element_name(tables.elements, a));
    let q = path_of(tables.schema, t, element_name(tables.elements, b));
    match p.order(q) {
        Ordering::Less => Action::AOnly,
        Ordering::Equal | Ordering::Greater => Action::BOnly,
    }
}

fn same_element_text(tables: &Tables, a: Element, b: Element) -> bool
    requires a_in_bounds { a.0 < element_count tables.now }
    requires b_in_bounds { b.0 < element_count tables.now }
    ensures { let x = fixed_of tables.now in
        let m = model_in tables.now in
        result ≡ same_texts x (element_text x m a.0) (element_text x m b.0) }
{
    let first = sole_text(tables, a);
    let second = sole_text(tables, b);
    match (first, second) {
        (Some(t), Some(u)) => same_text(
            stored_text(tables.elements, t),
            stored_text(tables.elements, u),
            tables.deck,
        ),
        (None, None) => true,
        _ => false,
    }
}

// What the cursor children alone decide; None where a B sibling is to be sought. The A parent is of type t.
pub fn cursor_action(tables: &Tables, t: TypeNumber, a: Element, b: Element) -> Option<Action>
    requires t_in_bounds { t.0 < length (schema_of tables.now.schema.now).types }
    requires a_in_bounds { a.0 < element_count tables.now }
    requires b_in_bounds { b.0 < element_count tables.now }
    ensures { Decides (element_count tables.now) (fixed_of tables.now) (model_in tables.now) t.0 a.0 b.0 result }
{
    let m = element_name(tables.elements, a);
    let n = element_name(tables.elements, b);
    if m != n {
        return Some(action_by_path(tables, t, a, b));
    }
    let kind = compared_key(tables, a);
    let key = key_of(tables, kind, a);
    let other = key_of(tables, kind, b);
    if !same_key(tables.deck, key, other) {
        return None;
    }
    if kind == KeyKind::ItemName || same_element_text(tables, a, b) {
        return Some(Action::MergeEqual);
    }
    Some(Action::AOnly)
}

// Names equal and keys different, A identifiable. This function and the next are two, as document 01 names both.
fn calc_identifiables_merge(
    tables: &Tables,
    splittable: bool,
    second: &[u16],
    names: &[u16],
    a: Element,
) -> Action
    requires listed { Listed (element_count tables.now) second.now }
    requires key_marks { KeyMarks (item_name (fixed_of tables.now) (model_in tables.now)) second.now names.now }
    requires a_in_bounds { a.0 < element_count tables.now }
    ensures { let x = fixed_of tables.now in
        let m = model_in tables.now in
        (b : ℕ) → same_key (item_name x m a.0) (item_name x m b) ≡ false
        → Acts (element_count tables.now) result (calc_identifiables_merge x m splittable second.now a.0 b) }
{
    let key = key_of(tables, KeyKind::ItemName, a);
    let found = sibling(tables, KeyKind::ItemName, second, names, a, key);
    match found {
        Some(c) => Action::MergeUnequal(c),
        None => {
            if splittable {
                Action::AOnly
            } else {
                Action::UnmergeableParent
            }
        }
    }
}

// Names equal and keys different, A not identifiable.
fn calc_element_merge(tables: &Tables, second: &[u16], definitions: &[u16], a: Element) -> Action
    requires listed { Listed (element_count tables.now) second.now }
    requires key_marks { KeyMarks (definition (fixed_of tables.now) (model_in tables.now)) second.now definitions.now }
    requires a_in_bounds { a.0 < element_count tables.now }
    ensures { let x = fixed_of tables.now in
        let m = model_in tables.now in
        (b : ℕ) → same_key (definition x m a.0) (definition x m b) ≡ false
        → Acts (element_count tables.now) result (calc_element_merge x m second.now a.0 b) }
{
    let key = key_of(tables, KeyKind::Definition, a);
    let found = sibling(tables, KeyKind::Definition, second, definitions, a, key);
    match found {
        Some(c) => Action::MergeUnequal(c),
        None => Action::AOnly,
    }
}

// Where the cursor children do not decide; `second` are the B parent's children, `names` and `definitions` the marks of their keys.
pub fn search_action(
    tables: &Tables,
    splittable: bool,
    second: &[u16],
    names: &[u16],
    definitions: &[u16],
    a: Element,
) -> Action
    requires listed { Listed (element_count tables.now) second.now }
    requires key_marks { KeyMarks (item_name (fixed_of tables.now) (model_in tables.now)) second.now names.now }
    requires key_marks_2 { KeyMarks (definition (fixed_of tables.now) (model_in tables.now)) second.now definitions.now }
    requires a_in_bounds { a.0 < element_count tables.now }
    ensures { Searches (element_count tables.now) (fixed_of tables.now) (model_in tables.now) splittable second.now a.0 result }
{
    if is_identifiable(tables, a) {
        return calc_identifiables_merge(tables, splittable, second, names, a);
    }
    calc_element_merge(tables, second, definitions, a)
}
