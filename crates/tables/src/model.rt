// The model table: the count of elements; each element's parent + 1, 0 for none; where each element's list starts among the items, and where
// the last one ends; the items, an element's number or ELEMENT_LIMIT + a text's number; each element's set; zeros behind what each area uses.

ghost use Rattle.std.specs.Prelude.{◌≡◌, ℕ, ◌+◌, ◌-◌, ◌≤◌, ◌<◌, length, get_or, replicate};
ghost use Rattle.tables.specs.Limits.{element_limit, item_limit};
ghost use Rattle.tables.specs.Records.{Model, child, parent_of, set_of, list_of, content_items, put_parent, put_set, insert_item, insert_items, put_item, remove_items, add_to_model};
ghost use Rattle.tables.specs.SetCells.{set_is};
ghost use Rattle.tables.specs.ModelTable.{parent_is, item_is, parent_cell, cell_parent, item_cell, cell_item, count_of, model_of, ParentBelow, ItemBelow, GoodModel, HoldsModel, StartOf, shift_in, shift_out, on_from};

use crate::cells::place_in;
use crate::file_set::{FileSet, SET_WIDTH, read_set, store_set};
use crate::limits::{ELEMENT_LIMIT, ITEM_LIMIT};
use crate::numbers::Element;

// An entry of a content list: an element, or a text by its number.
#[derive(Clone, Copy)]
pub enum Item {
    Child(Element),
    Text(usize),
}

// Where each area begins, and the table's size.
pub const PARENTS_AT: usize = 1;

pub const STARTS_AT: usize = PARENTS_AT + ELEMENT_LIMIT;

pub const ITEMS_AT: usize = STARTS_AT + ELEMENT_LIMIT + 1;

pub const SETS_AT: usize = ITEMS_AT + ITEM_LIMIT;

pub const MODEL_SIZE: usize = SETS_AT + ELEMENT_LIMIT * SET_WIDTH;

// The cell of text 0 among the items: those of elements are below it.
pub const TEXT_CELLS_AT: u64 = ELEMENT_LIMIT as u64;

// One cell as what it says, and back. By name and not by `From`: a u64 says not which cell it is, and two of them ask something of what they get.

pub fn cell_parent(c: u64) -> Option<Element>
    ensures { parent_is result ≡ cell_parent c }
{
    place_in(c).map(Element)
}

pub fn parent_cell(p: Option<Element>) -> u64
    requires { ParentBelow element_limit (parent_is p) }
    ensures { result ≡ parent_cell (parent_is p) }
{
    match p {
        Some(e) => e.0 as u64 + 1,
        None => 0,
    }
}

fn cell_item(c: u64) -> Item
    ensures { item_is result ≡ cell_item c }
{
    if c < TEXT_CELLS_AT {
        return Item::Child(Element(c as usize));
    }
    Item::Text((c - TEXT_CELLS_AT) as usize)
}

fn item_cell(a: Item) -> u64
    requires { ItemBelow element_limit (item_is a) }
    ensures { result ≡ item_cell (item_is a) }
{
    match a {
        Item::Child(e) => e.0 as u64,
        Item::Text(t) => TEXT_CELLS_AT + t as u64,
    }
}

// Changes of a part in place.

// The first k this value, the others moved up by k; the last k fall out. A loop, here and in `move_down`: by
// `copy_within` merges that import into long lists took a third to a half longer.
fn move_up(s: &mut [u64], k: usize, v: u64)
    requires { k ≤ length s.old }
    ensures { s.new ≡ shift_in s.old 0 k v }
{
    for j in (0..s.len() - k).rev() {
        s[j + k] = s[j];
    }
    s[..k].fill(v);
}

// The same; by one the loop compiles to one move.
fn put_front(s: &mut [u64], k: usize, v: u64)
    requires { k ≤ length s.old }
    ensures { s.new ≡ shift_in s.old 0 k v }
{
    if k == 1 {
        move_up(s, 1, v);
        return;
    }
    move_up(s, k, v);
}

// The value k times at a place, what stands from there on moved up by k; the last k fall out.
fn shift_in(s: &mut [u64], i: usize, k: usize, v: u64)
    requires { i + k ≤ length s.old }
    ensures { s.new ≡ shift_in s.old i k v }
{
    put_front(&mut s[i..], k, v);
}

// Without the first k, the others moved down by k, and zeros at the end.
fn move_down(s: &mut [u64], k: usize)
    requires { k ≤ length s.old }
    ensures { s.new ≡ shift_out s.old 0 k }
{
    let n = s.len() - k;
    for j in 0..n {
        s[j] = s[j + k];
    }
    clear(&mut s[n..]);
}

// The same; by one the loop compiles to one move.
fn drop_front(s: &mut [u64], k: usize)
    requires { k ≤ length s.old }
    ensures { s.new ≡ shift_out s.old 0 k }
{
    if k == 1 {
        move_down(s, 1);
        return;
    }
    move_down(s, k);
}

// Without the k entries at a place, what stands behind them moved down by k, and zeros at the end.
fn shift_out(s: &mut [u64], i: usize, k: usize)
    requires { i + k ≤ length s.old }
    ensures { s.new ≡ shift_out s.old i k }
{
    drop_front(&mut s[i..], k);
}

// Each entry from a place on, and k more.
fn raise_from(s: &mut [u64], i: usize, k: u64)
    requires by_index { (j : ℕ) → get_or s.old j 0 ≤ item_limit }
    requires k_le_item_limit { k ≤ item_limit }
    ensures { s.new ≡ on_from (λ (x : ℕ). x + k) s.old i }
{
    for j in i..s.len() {
        s[j] += k;
    }
}

// Each entry from a place on, and k less. Beside `raise_from`: one asks that no sum overflows, the other that no difference does.
fn lower_from(s: &mut [u64], i: usize, k: u64)
    requires { (j : ℕ) → i ≤ j → j < length s.old → k ≤ get_or s.old j 0 }
    ensures { s.new ≡ on_from (λ (x : ℕ). x - k) s.old i }
{
    for j in i..s.len() {
        s[j] -= k;
    }
}

// Every cell of a table zero.
pub fn clear(table: &mut [u64])
    ensures { table.new ≡ replicate (length table.old) 0 }
{
    table.fill(0);
}

// Reads.

pub fn count(model: &[u64]) -> usize
    requires { GoodModel model.now }
    ensures { result ≡ count_of (model_of model.now) }
{
    model[0] as usize
}

pub fn parent_of(model: &[u64], e: Element) -> Option<Element>
    requires good_model { GoodModel model.now }
    requires e_bound { e.0 < count_of (model_of model.now) }
    ensures { parent_is result ≡ parent_of (model_of model.now) e.0 }
{
    let i = PARENTS_AT + e.0;
    cell_parent(model[i])
}

pub fn set_of(model: &[u64], e: Element) -> FileSet
    requires good_model { GoodModel model.now }
    requires e_bound { e.0 < count_of (model_of model.now) }
    ensures { set_is result ≡ set_of (model_of model.now) e.0 }
{
    read_set(model, SETS_AT + e.0 * SET_WIDTH)
}

// Where the list of an element starts among the items.
fn start_of(model: &[u64], e: Element) -> usize
    requires good_model { GoodModel model.now }
    requires e_bound { e.0 < count_of (model_of model.now) }
    ensures { StartOf (model_of model.now) e.0 result }
{
    let i = STARTS_AT + e.0;
    model[i] as usize
}

// Content items over all lists.
pub fn item_total(model: &[u64]) -> usize
    requires { GoodModel model.now }
    ensures { result ≡ content_items (model_of model.now) }
{
    let i = STARTS_AT + count(model);
    model[i] as usize
}

pub fn list_length(model: &[u64], e: Element) -> usize
    requires good_model { GoodModel model.now }
    requires e_bound { e.0 < count_of (model_of model.now) }
    ensures { result ≡ length (list_of (model_of model.now) e.0) }
{
    let i = STARTS_AT + e.0;
    let j = i + 1;
    model[j] as usize - model[i] as usize
}

pub fn item_at(model: &[u64], e: Element, i: usize) -> Item
    requires good_model { GoodModel model.now }
    requires i_in_bounds { i < length (list_of (model_of model.now) e.0) }
    ensures { item_is result ≡ get_or (list_of (model_of model.now) e.0) i (child 0) }
{
    let at = start_of(model, e) + i;
    let j = ITEMS_AT + at;
    cell_item(model[j])
}

// Stores.

pub fn set_parent(model: &mut [u64], e: Element, p: Option<Element>)
    requires good_model { GoodModel model.old }
    requires e_bound { e.0 < count_of (model_of model.old) }
    requires parent_below { ParentBelow (count_of (model_of model.old)) (parent_is p) }
    ensures { HoldsModel model.new (put_parent (model_of model.old) e.0 (parent_is p)) }
{
    let i = PARENTS_AT + e.0;
    model[i] = parent_cell(p);
}

pub fn set_set(model: &mut [u64], e: Element, s: FileSet)
    requires good_model { GoodModel model.old }
    requires e_bound { e.0 < count_of (model_of model.old) }
    ensures { HoldsModel model.new (put_set (model_of model.old) e.0 (set_is s)) }
{
    store_set(model, SETS_AT + e.0 * SET_WIDTH, s);
}

// The item k times at this place of the element's list.
pub fn insert_items(model: &mut [u64], e: Element, i: usize, k: usize, a: Item)
    requires good_model { GoodModel model.old }
    requires e_bound { e.0 < count_of (model_of model.old) }
    requires i_in_bounds { i ≤ length (list_of (model_of model.old) e.0) }
    requires k_bound { content_items (model_of model.old) + k ≤ item_limit }
    requires item_below { ItemBelow (count_of (model_of model.old)) (item_is a) }
    ensures { HoldsModel model.new (insert_items (model_of model.old) e.0 i k (item_is a)) }
{
    let n = count(model);
    let total = item_total(model);
    let at = start_of(model, e) + i;
    let v = item_cell(a);
    let end = ITEMS_AT + total + k;
    shift_in(&mut model[ITEMS_AT..end], at, k, v);
    let last = STARTS_AT + n + 1;
    let later = e.0 + 1;
    raise_from(&mut model[STARTS_AT..last], later, k as u64);
}

// The item at this place of the element's list.
pub fn insert_item(model: &mut [u64], e: Element, i: usize, a: Item)
    requires good_model { GoodModel model.old }
    requires e_bound { e.0 < count_of (model_of model.old) }
    requires i_in_bounds { i ≤ length (list_of (model_of model.old) e.0) }
    requires model_bound { content_items (model_of model.old) < item_limit }
    requires item_below { ItemBelow (count_of (model_of model.old)) (item_is a) }
    ensures { HoldsModel model.new (insert_item (model_of model.old) e.0 i (item_is a)) }
{
    insert_items(model, e, i, 1, a);
}

// The item at this place of the element's list, in place of the one that stands there.
pub fn put_item(model: &mut [u64], e: Element, i: usize, a: Item)
    requires good_model { GoodModel model.old }
    requires e_bound { e.0 < count_of (model_of model.old) }
    requires i_in_bounds { i < length (list_of (model_of model.old) e.0) }
    requires item_below { ItemBelow (count_of (model_of model.old)) (item_is a) }
    ensures { HoldsModel model.new (put_item (model_of model.old) e.0 i (item_is a)) }
{
    let at = start_of(model, e) + i;
    let j = ITEMS_AT + at;
    model[j] = item_cell(a);
}

// The element's list without k items, the first of them at this place.
pub fn remove_items(model: &mut [u64], e: Element, i: usize, k: usize)
    requires good_model { GoodModel model.old }
    requires e_bound { e.0 < count_of (model_of model.old) }
    requires k_in_bounds { i + k ≤ length (list_of (model_of model.old) e.0) }
    ensures { HoldsModel model.new (remove_items (model_of model.old) e.0 i k) }
{
    let n = count(model);
    let total = item_total(model);
    let at = start_of(model, e) + i;
    let end = ITEMS_AT + total;
    shift_out(&mut model[ITEMS_AT..end], at, k);
    let last = STARTS_AT + n + 1;
    let next = e.0 + 1;
    lower_from(&mut model[STARTS_AT..last], next, k as u64);
}

// One more element, with an empty list.
pub fn add_element(model: &mut [u64], p: Option<Element>, s: FileSet)
    requires good_model { GoodModel model.old }
    requires model_bound { count_of (model_of model.old) < element_limit }
    requires parent_below { ParentBelow (count_of (model_of model.old)) (parent_is p) }
    ensures { HoldsModel model.new (add_to_model (model_of model.old) (parent_is p) (set_is s)) }
{
    let n = count(model);
    let c = parent_cell(p);
    let i = STARTS_AT + n;
    let last = model[i];
    model[0] = n as u64 + 1;
    let j = PARENTS_AT + n;
    model[j] = c;
    let k = STARTS_AT + (n + 1);
    model[k] = last;
    store_set(model, SETS_AT + n * SET_WIDTH, s);
}
