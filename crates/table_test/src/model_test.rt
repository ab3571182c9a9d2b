// The test of a model table: the part of refusal 0 that needs this table and the number of texts alone.

ghost use Rattle.std.specs.Prelude.{◌≡◌, true, map, ℕ, ◌≤◌, ◌<◌, length, get_or};
ghost use Rattle.tables.specs.Limits.{element_limit, item_limit};
ghost use Rattle.tables.specs.Lists.{all_of};
ghost use Rattle.tables.specs.ModelTable.{cell_item, model_of, GoodModel};
ghost use Rattle.table_test.specs.ModelTest.{rising, cell_in_range, once_in, model_shape, model_unused, model_used, model_once, is_model_table, Shaped};

use crate::scan;
use tables::file_set::SET_WIDTH;
use tables::limits::{ELEMENT_LIMIT, ITEM_LIMIT};
use tables::model;
use tables::numbers::Element;

// None is less than the one before it, and the last is within the items. No way out before the end, as in `all_zero`.
fn rises(s: &[u64]) -> bool
    ensures { result ≡ rising 0 s.now }
{
    let mut all = true;
    let mut last = 0;
    for x in s {
        all = all & (last <= *x);
        last = *x;
    }
    all & (last <= ITEM_LIMIT as u64)
}

fn cell_in_range(c: u64, n: u64, texts: u64) -> bool
    ensures { result ≡ cell_in_range n texts c }
{
    if c < model::TEXT_CELLS_AT {
        return c < n;
    }
    c - model::TEXT_CELLS_AT < texts
}

// As `all_at_most`, which stands by itself: no closure is called in this loop.
fn cells_in_range(s: &[u64], n: u64, texts: u64) -> bool
    ensures { result ≡ all_of (cell_in_range n texts) s.now }
{
    let mut all = true;
    for c in s {
        all = all & cell_in_range(*c, n, texts);
    }
    all
}

// No element twice in a list, from the end to the front: the elements passed are marked with this list's number. By places: what is marked is said of
// the cells from a place on.
fn once(list: &[u64], marks: &mut [u64], mark: u64) -> bool
    requires marks_len { length marks.old ≡ element_limit }
    requires by_index { (k : ℕ) → get_or marks.old k 0 < mark }
    ensures value { result ≡ once_in (map cell_item list.now) }
    ensures by_index_2 { (k : ℕ) → get_or marks.new k 0 ≤ mark }
{
    for j in (0..list.len()).rev() {
        let c = list[j];
        if c < model::TEXT_CELLS_AT {
            let k = c as usize;
            if marks[k] == mark {
                return false;
            }
            marks[k] = mark;
        }
    }
    true
}

// Size and count, and the starts in order.
fn shape(t: &[u64]) -> bool
    ensures { result ≡ model_shape t.now }
{
    if t.len() != model::MODEL_SIZE {
        return false;
    }
    let n = t[0];
    if (ELEMENT_LIMIT as u64) < n {
        return false;
    }
    if t[model::STARTS_AT] != 0 {
        return false;
    }
    let a = model::STARTS_AT + 1;
    let b = a + n as usize;
    rises(&t[a..b])
}

// Cells that are not used are zero.
fn unused(t: &[u64]) -> bool
    requires { Shaped t.now }
    ensures { result ≡ model_unused t.now }
{
    let n = t[0] as usize;
    let a = model::PARENTS_AT + n;
    if !scan::all_zero(&t[a..model::STARTS_AT]) {
        return false;
    }
    let b = model::STARTS_AT + 1 + n;
    if !scan::all_zero(&t[b..model::ITEMS_AT]) {
        return false;
    }
    let i = model::STARTS_AT + n;
    let c = model::ITEMS_AT + t[i] as usize;
    if !scan::all_zero(&t[c..model::SETS_AT]) {
        return false;
    }
    let d = model::SETS_AT + n * SET_WIDTH;
    scan::all_zero(&t[d..model::MODEL_SIZE])
}

// Parents and items are within their range.
fn used(t: &[u64], texts: u64) -> bool
    requires { Shaped t.now }
    ensures { result ≡ model_used texts t.now }
{
    let n = t[0];
    let a = model::PARENTS_AT + n as usize;
    if !scan::all_at_most(&t[model::PARENTS_AT..a], n) {
        return false;
    }
    let i = model::STARTS_AT + n as usize;
    let b = model::ITEMS_AT + t[i] as usize;
    cells_in_range(&t[model::ITEMS_AT..b], n, texts)
}

// No element twice in its list; a list of fewer than two items has none.
fn lists_once(t: &[u64]) -> bool
    requires { GoodModel t.now }
    ensures { result ≡ model_once (model_of t.now) }
{
    let mut marks = [0u64; ELEMENT_LIMIT];
    for e in 0..model::count(t) {
        let i = model::STARTS_AT + e;
        let a = model::ITEMS_AT + t[i] as usize;
        let size = model::list_length(t, Element(e));
        if size < 2 {
            continue;
        }
        let b = a + size;
        if !once(&t[a..b], &mut marks, e as u64 + 1) {
            return false;
        }
    }
    true
}

pub fn is_model_table(t: &[u64], texts: u64) -> bool
    requires { texts ≤ item_limit }
    ensures { result ≡ is_model_table texts t.now }
{
    if !shape(t) {
        return false;
    }
    if !unused(t) {
        return false;
    }
    if !used(t, texts) {
        return false;
    }
    lists_once(t)
}
