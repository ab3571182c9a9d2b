// Roots of depth 0 and type 0, and listed elements one deeper than their owner and of the type that a row gives their name.
ghost use Rattle.std.specs.Prelude.{List, ◌≡◌, ℕ, ◌<◌, length, IfSome, is_some};
ghost use Rattle.tables.specs.Cells.{Each};
ghost use Rattle.tables.specs.Lists.{all_of};
ghost use Rattle.tables.specs.Records.{child, list_of};
ghost use Rattle.tables.specs.ElementsTable.{elements_of, GoodElements};
ghost use Rattle.tables.specs.ModelTable.{item_is, count_of, model_of, ItemBelow, GoodModel};
ghost use Rattle.tables.specs.SchemaTable.{schema_of, GoodSchema, no_sub_element};
ghost use Rattle.deck.specs.Schema.{row_of_name};
ghost use Rattle.schema_calls.specs.Calls.{Finds};
ghost use Rattle.state_test.specs.StateTest.{root_valid, roots_valid, item_valid, lists_valid, fixed_in, Shallow, FoundRow};

use schema_calls::calls::row_of_name;
use tables::elements::{
    element_count, element_depth, element_name, element_type, tree_count, tree_root,
};
use tables::model::{Item, count, item_at, list_length};
use tables::numbers::{Element, Name, ROOT, TypeNumber};
use tables::schema::{row_child, row_count, row_name, row_type};

fn root_valid(elements: &[u64], e: Element) -> bool
    requires { GoodElements elements.now }
    ensures { (deck schema : List ℕ) → result ≡ root_valid (fixed_in deck schema elements.now) e.0 }
{
    element_count(elements) <= e.0
        || (element_depth(elements, e) == 0 && element_type(elements, e) == TypeNumber(0))
}

// The model's root, and each tree's.
pub fn roots_valid(elements: &[u64]) -> bool
    requires { GoodElements elements.now }
    ensures { (deck schema : List ℕ) → result ≡ roots_valid (fixed_in deck schema elements.now) }
{
    if !root_valid(elements, ROOT) {
        return false;
    }
    for i in 0..tree_count(elements) {
        if !root_valid(elements, tree_root(elements, i)) {
            return false;
        }
    }
    true
}

// The row of the name in the type: the one at this place, if it is that, else the one that a search finds.
fn row_again(schema: &[u64], t: TypeNumber, n: Name, row: usize) -> Option<usize>
    requires good_schema { GoodSchema schema.now }
    requires found_row { FoundRow (schema_of schema.now) row }
    ensures { Finds no_sub_element (schema_of schema.now).sub_elements result (row_of_name (schema_of schema.now) t.0 n.0) }
{
    if row < row_count(schema) && row_type(schema, row) == t && row_name(schema, row) == n {
        return Some(row);
    }
    row_of_name(schema, t, n)
}

// A listed element is one deeper than p, and has the type that the row of its name in p's type gives: that row then, else none.
fn child_valid(
    schema: &[u64],
    elements: &[u64],
    p: Element,
    e: Element,
    row: usize,
) -> Option<usize>
    requires good_schema { GoodSchema schema.now }
    requires good_elements { GoodElements elements.now }
    requires each { Each Shallow (elements_of elements.now).depths }
    requires p_in_bounds { p.0 < length (elements_of elements.now).names }
    requires e_in_bounds { e.0 < length (elements_of elements.now).names }
    requires found_row { FoundRow (schema_of schema.now) row }
    ensures by_index { (deck : List ℕ) → is_some result ≡ item_valid (fixed_in deck schema.now elements.now) p.0 (child e.0) }
    ensures found_row_2 { IfSome result (FoundRow (schema_of schema.now)) }
{
    if element_depth(elements, e) != element_depth(elements, p) + 1 {
        return None;
    }
    let t = element_type(elements, p);
    let i = row_again(schema, t, element_name(elements, e), row)?;
    if row_child(schema, i) != element_type(elements, e) {
        return None;
    }
    Some(i)
}

// The row found last if the item is valid, else none.
fn item_valid(schema: &[u64], elements: &[u64], p: Element, a: Item, row: usize) -> Option<usize>
    requires good_schema { GoodSchema schema.now }
    requires good_elements { GoodElements elements.now }
    requires each { Each Shallow (elements_of elements.now).depths }
    requires p_in_bounds { p.0 < length (elements_of elements.now).names }
    requires item_below { ItemBelow (length (elements_of elements.now).names) (item_is a) }
    requires found_row { FoundRow (schema_of schema.now) row }
    ensures by_index { (deck : List ℕ) → is_some result ≡ item_valid (fixed_in deck schema.now elements.now) p.0 (item_is a) }
    ensures found_row_2 { IfSome result (FoundRow (schema_of schema.now)) }
{
    match a {
        Item::Child(e) => child_valid(schema, elements, p, e, row),
        Item::Text(_) => Some(row),
    }
}

// The row found last if each item in the list of p is valid, else none.
fn list_valid(
    schema: &[u64],
    elements: &[u64],
    model: &[u64],
    p: Element,
    row: usize,
) -> Option<usize>
    requires good_schema { GoodSchema schema.now }
    requires good_elements { GoodElements elements.now }
    requires each { Each Shallow (elements_of elements.now).depths }
    requires good_model { GoodModel model.now }
    requires model_value { count_of (model_of model.now) ≡ length (elements_of elements.now).names }
    requires p_bound { p.0 < count_of (model_of model.now) }
    requires found_row { FoundRow (schema_of schema.now) row }
    ensures by_index { (deck : List ℕ) → is_some result ≡ all_of (item_valid (fixed_in deck schema.now elements.now) p.0) (list_of (model_of model.now) p.0) }
    ensures found_row_2 { IfSome result (FoundRow (schema_of schema.now)) }
{
    let mut last = row;
    for i in 0..list_length(model, p) {
        let a = item_at(model, p, i);
        last = item_valid(schema, elements, p, a, last)?;
    }
    Some(last)
}

pub fn lists_valid(schema: &[u64], elements: &[u64], model: &[u64]) -> bool
    requires good_schema { GoodSchema schema.now }
    requires good_elements { GoodElements elements.now }
    requires each { Each Shallow (elements_of elements.now).depths }
    requires good_model { GoodModel model.now }
    requires model_value { count_of (model_of model.now) ≡ length (elements_of elements.now).names }
    ensures { (deck : List ℕ) → result ≡ lists_valid (fixed_in deck schema.now elements.now) 0 (model_of model.now).lists }
{
    // A place past the last row stands for no row yet: it is asked as any other, and an Option inside the answers' Option would say no more.
    let mut last = row_count(schema);
    for p in 0..count(model) {
        let Some(row) = list_valid(schema, elements, model, Element(p), last) else {
            return false;
        };
        last = row;
    }
    true
}
