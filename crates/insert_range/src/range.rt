// Insert range: where an element of a name may stand in a parent's list.
ghost use Rattle.std.specs.Prelude.{true, List, ◌≡◌, ℕ, ◌<◌, length, get_or};
ghost use Rattle.tables.specs.Cells.{Each};
ghost use Rattle.tables.specs.Limits.{item_limit, version_limit};
ghost use Rattle.tables.specs.Records.{list_of};
ghost use Rattle.tables.specs.ElementsTable.{elements_of, GoodElements};
ghost use Rattle.tables.specs.ModelTable.{model_of, item_is, ItemBelow};
ghost use Rattle.tables.specs.SchemaTable.{schema_of, GoodSchema, mode_from, mult_is, no_sub_element};
ghost use Rattle.state_test.specs.StateTest.{fixed_in};
ghost use Rattle.merge_rules.specs.Range.{equal_path, move_by, read_content};
ghost use Rattle.table_test.specs.Fits.{ModelOver};
ghost use Rattle.insert_range.specs.Range.{ordering_is, move_is, move_of, bounds_after, Compares, name_or, Moves, range_is, Ranges, AnyPlace};

use schema_calls::calls::{find_common_group, find_sub_element, row_of_name};
use std::cmp::Ordering;
use tables::elements::{element_name, element_type};
use tables::model::{Item, item_at, list_length};
use tables::numbers::{Element, Name, TypeNumber};
use tables::schema::{Mult, row_mult, row_name, row_path, type_mode};

// The first and last place, of a range or of the items so far.
#[derive(Clone, Copy)]
pub struct Bounds {
    pub first: usize,
    pub last: usize,
}

// Why there is no place: no row of the name in the version; a conflict.
#[derive(Clone, Copy, PartialEq, Eq)]
pub enum Unplaced {
    NoRow,
    Conflicting,
}

// What a content item does to the bounds.
#[derive(Clone, Copy)]
pub enum Move {
    Stop,
    To(Bounds),
    Clash,
}

// The new element and the item's have one path.
fn equal_path(mult: Mult, first: usize, index: usize) -> Move
    requires { index < item_limit }
    ensures { move_is result ≡ equal_path (mult_is mult) first index }
{
    match mult {
        Mult::AtMostOne | Mult::One => Move::Clash,
        Mult::Any => Move::To(Bounds {
            first,
            last: index + 1,
        }),
    }
}

// By the common group's mode (0 sequence, 1 choice, 2 bag, 3 mixed), and the new path's order against the item's.
// Modes are numbers here and below, and `Move` is an enum of its own, since the choice is to read as the rules do: a match over mode
// numbers and three path orders that chooses stop, move or conflict (docs/DECISIONS.md).
fn move_by(mode: u64, order: Ordering, mult: Mult, first: usize, index: usize) -> Move
    requires { index < item_limit }
    ensures { move_is result ≡ move_by (mode_from mode) (ordering_is order) (mult_is mult) first index }
{
    let next = index + 1;
    match mode {
        0 => match order {
            Ordering::Less => Move::Stop,
            Ordering::Equal => equal_path(mult, first, index),
            Ordering::Greater => Move::To(Bounds {
                first: next,
                last: next,
            }),
        },
        1 => match order {
            Ordering::Equal => equal_path(mult, first, index),
            Ordering::Less | Ordering::Greater => Move::Clash,
        },
        _ => Move::To(Bounds { first, last: next }),
    }
}

// How the elements of a name that has a row stand to the new one: the common group's mode, and the new path's order against theirs.
#[derive(Clone, Copy)]
pub struct Against {
    pub mode: u64,
    pub order: Ordering,
}

fn compare_name(schema: &[u64], t: TypeNumber, new: usize, n: Name) -> Option<Against>
    requires good_schema { GoodSchema schema.now }
    requires t_in_bounds { t.0 < length (schema_of schema.now).types }
    requires in_bounds { new < length (schema_of schema.now).sub_elements }
    ensures { Compares schema.now t.0 new n.0 result }
{
    let old = row_of_name(schema, t, n)?;
    let path = row_path(schema, new);
    let other = row_path(schema, old);
    let mode = find_common_group(schema, t, path, other);
    let order = path.order(other);
    Some(Against { mode, order })
}

// The same in the loop over a list, which asks once for a run of items of one name. Cold, so that the straight line of a turn is the name that stays.
#[cold]
#[inline(never)]
fn compare_next(schema: &[u64], t: TypeNumber, new: usize, n: Name) -> Option<Against>
    requires good_schema { GoodSchema schema.now }
    requires t_in_bounds { t.0 < length (schema_of schema.now).types }
    requires in_bounds { new < length (schema_of schema.now).sub_elements }
    ensures { Compares schema.now t.0 new n.0 result }
{
    compare_name(schema, t, new, n)
}

// The name of an item; of a text, the last one.
fn name_or(elements: &[u64], a: Item, last: Name) -> Name
    requires good_elements { GoodElements elements.now }
    requires item_below { ItemBelow (length (elements_of elements.now).names) (item_is a) }
    ensures { result.0 ≡ name_or elements.now last.0 (item_is a) }
{
    match a {
        Item::Child(e) => element_name(elements, e),
        Item::Text(_) => last,
    }
}

// The move of an item; a text moves the last place.
fn move_of(a: Item, against: Option<Against>, mult: Mult, index: usize, bounds: Bounds) -> Move
    requires { index < item_limit }
    ensures { move_is result ≡ move_of (item_is a) against mult index bounds }
{
    let first = bounds.first;
    match a {
        Item::Child(_) => match against {
            None => Move::To(bounds),
            Some(x) => move_by(x.mode, x.order, mult, first, index),
        },
        Item::Text(_) => Move::To(Bounds {
            first,
            last: index + 1,
        }),
    }
}

// The bounds behind a move.
fn bounds_after(m: Move, bounds: Bounds) -> Bounds
    ensures { result ≡ bounds_after m bounds }
{
    match m {
        Move::To(next) => next,
        Move::Stop | Move::Clash => bounds,
    }
}

// One content item moves the bounds that are lent.
fn read_item(
    a: Item,
    against: Option<Against>,
    mult: Mult,
    index: usize,
    bounds: &mut Bounds,
) -> Move
    requires { index < item_limit }
    ensures { Moves (item_is a) against mult index bounds.old bounds.new result }
{
    let m = move_of(a, against, mult, index, *bounds);
    *bounds = bounds_after(m, *bounds);
    m
}

// The items of p's list in order, against the row of the new name.
fn read_content(
    schema: &[u64],
    elements: &[u64],
    model: &[u64],
    p: Element,
    new: usize,
) -> Result<Bounds, Unplaced>
    requires good_schema { GoodSchema schema.now }
    requires good_elements { GoodElements elements.now }
    requires each { Each (λ (t : ℕ). t < length (schema_of schema.now).types) (elements_of elements.now).types }
    requires model_over { ModelOver elements.now model.now }
    requires p_in_bounds { p.0 < length (elements_of elements.now).names }
    requires in_bounds { new < length (schema_of schema.now).sub_elements }
    ensures { (deck : List ℕ) → range_is result ≡ read_content (fixed_in deck schema.now elements.now) p.0 (get_or (schema_of schema.now).sub_elements new no_sub_element) (list_of (model_of model.now) p.0) 0 0 0 }
{
    let t = element_type(elements, p);
    let mult = row_mult(schema, new);
    let mut name = row_name(schema, new);
    let mut against = compare_name(schema, t, new, name);
    let mut bounds = Bounds { first: 0, last: 0 };
    for i in 0..list_length(model, p) {
        let a = item_at(model, p, i);
        let next = name_or(elements, a, name);
        if next != name {
            name = next;
            against = compare_next(schema, t, new, name);
        }
        match read_item(a, against, mult, i, &mut bounds) {
            Move::Stop => return Ok(bounds),
            Move::To(_) => {}
            Move::Clash => return Err(Unplaced::Conflicting),
        }
    }
    Ok(bounds)
}

// Where an element of this name may stand in the list of p.
pub fn calc_element_insert_range(
    schema: &[u64],
    elements: &[u64],
    model: &[u64],
    p: Element,
    n: Name,
    v: u64,
) -> Result<Bounds, Unplaced>
    requires good_schema { GoodSchema schema.now }
    requires good_elements { GoodElements elements.now }
    requires each { Each (λ (t : ℕ). t < length (schema_of schema.now).types) (elements_of elements.now).types }
    requires model_over { ModelOver elements.now model.now }
    requires p_in_bounds { p.0 < length (elements_of elements.now).names }
    requires v_lt_version_limit { v < version_limit }
    ensures { Ranges schema.now elements.now model.now p.0 n.0 v result }
{
    let t = element_type(elements, p);
    let Some(new) = find_sub_element(schema, t, n, 1u64 << v) else {
        return Err(Unplaced::NoRow);
    };
    let mode = type_mode(schema, t);
    match mode {
        0 | 1 => read_content(schema, elements, model, p, new),
        2 | 3 => Ok(Bounds {
            first: 0,
            last: list_length(model, p),
        }),
        _ => Err(Unplaced::NoRow),
    }
}

// An element of a name with a row may stand at any place in the list of p.
pub fn takes_any_place(schema: &[u64], elements: &[u64], p: Element) -> bool
    requires good_schema { GoodSchema schema.now }
    requires good_elements { GoodElements elements.now }
    requires each { Each (λ (t : ℕ). t < length (schema_of schema.now).types) (elements_of elements.now).types }
    requires p_in_bounds { p.0 < length (elements_of elements.now).names }
    ensures { result ≡ true → AnyPlace schema.now elements.now p.0 }
{
    let t = element_type(elements, p);
    let mode = type_mode(schema, t);
    matches!(mode, 2 | 3)
}
