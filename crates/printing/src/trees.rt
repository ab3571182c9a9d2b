// Trees, behind what a buffer holds.
ghost use Rattle.std.specs.Prelude.{List, [], ◌∷◌, ℕ, suc, ◌<◌, length, get_or};
ghost use Rattle.tables.specs.Lists.{keep};
ghost use Rattle.tables.specs.Records.{Item, list_of, depth_of};
ghost use Rattle.tables.specs.ElementsTable.{elements_of, no_tree};
ghost use Rattle.tables.specs.ModelTable.{count_of, model_of, item_is};
ghost use Rattle.state_test.specs.StateTest.{waits, fixed_in};
ghost use Rattle.merge_rules.specs.Program.{item_lines, element_lines, model_lines};
ghost use Rattle.printing.specs.Buffers.{buffer_is, Appends};
ghost use Rattle.merge_rules.specs.DeckLines.{tree_lines, waiting_lines, trees_lines};
ghost use Rattle.printing.specs.TreeLines.{Readable, ItemIn};

use crate::buffer::{Written, append_bytes, append_number, is_full};
use crate::lines::{append_element_line, append_text_line};
use tables::elements::{element_depth, tree_count, tree_file, tree_root};
use tables::limits::DEPTH_LIMIT;
use tables::model::{Item, item_at, list_length, set_of};
use tables::numbers::Element;

// At most `left` levels of elements are printed.

#[cycle(tree)]
fn append_element(
    deck: &[u8],
    elements: &[u64],
    model: &[u64],
    out: &mut [u8],
    w: Written,
    e: Element,
    left: u64,
) -> Written
    requires readable { Readable deck.now elements.now model.now }
    requires e_bound { e.0 < count_of (model_of model.now) }
    ensures { (schema : List ℕ) → Appends (buffer_is w out.old) (element_lines left (fixed_in deck.now schema elements.now) (model_of model.now) e.0) (buffer_is result out.new) }
{
    if left == 0 {
        return w;
    }
    let k = append_element_line(deck, elements, model, out, w, e);
    append_items(deck, elements, model, out, k, e, left - 1)
}

// The items of element e.
#[cycle(tree)]
fn append_items(
    deck: &[u8],
    elements: &[u64],
    model: &[u64],
    out: &mut [u8],
    w: Written,
    e: Element,
    left: u64,
) -> Written
    requires readable { Readable deck.now elements.now model.now }
    requires e_bound { e.0 < count_of (model_of model.now) }
    ensures { (schema : List ℕ) → Appends (buffer_is w out.old) (item_lines (element_lines left (fixed_in deck.now schema elements.now) (model_of model.now)) (fixed_in deck.now schema elements.now) (suc (depth_of (fixed_in deck.now schema elements.now) e.0)) (list_of (model_of model.now) e.0)) (buffer_is result out.new) }
{
    let depth = element_depth(elements, e) + 1;
    let mut k = w;
    for i in 0..list_length(model, e) {
        let a = item_at(model, e, i);
        k = append_item(deck, elements, model, out, k, a, depth, left);
    }
    k
}

// Ends where the buffer is full: the lists below may share elements, and print more bytes than any buffer has.
#[cycle(tree)]
fn append_item(
    deck: &[u8],
    elements: &[u64],
    model: &[u64],
    out: &mut [u8],
    w: Written,
    a: Item,
    depth: u64,
    left: u64,
) -> Written
    requires readable { Readable deck.now elements.now model.now }
    requires item_in { ItemIn elements.now model.now (item_is a) }
    ensures { (schema : List ℕ) → Appends (buffer_is w out.old) (item_lines (element_lines left (fixed_in deck.now schema elements.now) (model_of model.now)) (fixed_in deck.now schema elements.now) depth (item_is a ∷ [])) (buffer_is result out.new) }
{
    if is_full(out, w) {
        return w;
    }
    match a {
        Item::Child(e) => append_element(deck, elements, model, out, w, e, left),
        Item::Text(t) => append_text_line(deck, elements, model, out, w, t, depth),
    }
}

// All levels that a tree has: the largest depth and the root.
const LEVELS: u64 = DEPTH_LIMIT + 1;

pub fn append_model(
    deck: &[u8],
    elements: &[u64],
    model: &[u64],
    out: &mut [u8],
    w: Written,
) -> Written
    requires { Readable deck.now elements.now model.now }
    ensures { (schema : List ℕ) → Appends (buffer_is w out.old) (model_lines (fixed_in deck.now schema elements.now) (model_of model.now)) (buffer_is result out.new) }
{
    append_element(deck, elements, model, out, w, Element(0), LEVELS)
}

// The tree t.
fn append_tree(
    deck: &[u8],
    elements: &[u64],
    model: &[u64],
    out: &mut [u8],
    w: Written,
    t: usize,
) -> Written
    requires readable { Readable deck.now elements.now model.now }
    requires t_in_bounds { t < length (elements_of elements.now).trees }
    ensures { (schema : List ℕ) → Appends (buffer_is w out.old) (tree_lines (fixed_in deck.now schema elements.now) (model_of model.now) (get_or (elements_of elements.now).trees t no_tree)) (buffer_is result out.new) }
{
    let f = tree_file(elements, t);
    let root = tree_root(elements, t);
    let k = append_bytes(out, w, b"B,");
    let l = append_number(out, k, f.0, 10, b'\n');
    append_element(deck, elements, model, out, l, root, LEVELS)
}

// The trees that wait: those whose files are not loaded.
fn append_waiting(
    deck: &[u8],
    elements: &[u64],
    model: &[u64],
    out: &mut [u8],
    w: Written,
) -> Written
    requires { Readable deck.now elements.now model.now }
    ensures { (schema : List ℕ) → Appends (buffer_is w out.old) (waiting_lines (fixed_in deck.now schema elements.now) (model_of model.now) (keep (waits (model_of model.now)) (elements_of elements.now).trees)) (buffer_is result out.new) }
{
    let loaded = set_of(model, Element(0));
    let mut k = w;
    for t in 0..tree_count(elements) {
        if loaded.holds(tree_file(elements, t)) {
            continue;
        }
        k = append_tree(deck, elements, model, out, k, t);
    }
    k
}

pub fn append_trees(
    deck: &[u8],
    elements: &[u64],
    model: &[u64],
    out: &mut [u8],
    w: Written,
) -> Written
    requires { Readable deck.now elements.now model.now }
    ensures { (schema : List ℕ) → Appends (buffer_is w out.old) (trees_lines (fixed_in deck.now schema elements.now) (model_of model.now)) (buffer_is result out.new) }
{
    let k = append_bytes(out, w, b"M\n");
    let l = append_model(deck, elements, model, out, k);
    append_waiting(deck, elements, model, out, l)
}
