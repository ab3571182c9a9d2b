// The elements table: the counts of elements, texts and trees; each element's name, type and depth; each text's kind (0 an enum number, 1 a
// string, 2 a whole number, 3 a float's bits) and value (a string's is its place * STRING_LIMIT + its length); each tree's file and root; zeros.

ghost use Rattle.std.specs.Prelude.{◌≡◌, [], ◌∷◌, ◌<◌, length, get_or};
ghost use Rattle.tables.specs.Limits.{element_limit, item_limit, file_limit};
ghost use Rattle.tables.specs.Records.{enum_number, add_element, add_text, add_tree};
ghost use Rattle.tables.specs.Texts.{stored_is, StoredFits};
ghost use Rattle.tables.specs.ElementsTable.{elements_of, GoodElements, HoldsElements, text_cells, tree_cells, no_tree, element_width, text_width, tree_width};

use crate::cells::push_row;
use crate::limits::{ELEMENT_LIMIT, FILE_LIMIT, ITEM_LIMIT};
use crate::numbers::{Element, FileNumber, Name, TypeNumber};
use crate::text::StoredText;

// The cells of one row of each area.
pub const ELEMENT_WIDTH: usize = 3;

pub const TEXT_WIDTH: usize = 2;

pub const TREE_WIDTH: usize = 2;

// Where each area begins, and the table's size.
pub const ELEMENTS_AT: usize = 3;

pub const TEXTS_AT: usize = ELEMENTS_AT + ELEMENT_LIMIT * ELEMENT_WIDTH;

pub const TREES_AT: usize = TEXTS_AT + ITEM_LIMIT * TEXT_WIDTH;

pub const ELEMENTS_SIZE: usize = TREES_AT + FILE_LIMIT as usize * TREE_WIDTH;

pub fn element_count(elements: &[u64]) -> usize
    requires { GoodElements elements.now }
    ensures { result ≡ length (elements_of elements.now).names }
{
    elements[0] as usize
}

pub fn text_count(elements: &[u64]) -> usize
    requires { GoodElements elements.now }
    ensures { result ≡ length (elements_of elements.now).texts }
{
    elements[1] as usize
}

pub fn tree_count(elements: &[u64]) -> usize
    requires { GoodElements elements.now }
    ensures { result ≡ length (elements_of elements.now).trees }
{
    elements[2] as usize
}

// One cell of element e: name, type or depth.
fn element_cell(elements: &[u64], e: usize, field: usize) -> u64
    requires good_elements { GoodElements elements.now }
    requires e_in_bounds { e < length (elements_of elements.now).names }
    requires field_lt_element_width { field < element_width }
    ensures { result ≡ get_or (get_or (elements_of elements.now).names e 0 ∷ get_or (elements_of elements.now).types e 0 ∷ get_or (elements_of elements.now).depths e 0 ∷ []) field 0 }
{
    elements[ELEMENTS_AT + (e * ELEMENT_WIDTH + field)]
}

pub fn element_name(elements: &[u64], e: Element) -> Name
    requires good_elements { GoodElements elements.now }
    requires e_in_bounds { e.0 < length (elements_of elements.now).names }
    ensures { result.0 ≡ get_or (elements_of elements.now).names e.0 0 }
{
    Name(element_cell(elements, e.0, 0))
}

pub fn element_type(elements: &[u64], e: Element) -> TypeNumber
    requires good_elements { GoodElements elements.now }
    requires e_in_bounds { e.0 < length (elements_of elements.now).names }
    ensures { result.0 ≡ get_or (elements_of elements.now).types e.0 0 }
{
    TypeNumber(element_cell(elements, e.0, 1) as usize)
}

pub fn element_depth(elements: &[u64], e: Element) -> u64
    requires good_elements { GoodElements elements.now }
    requires e_in_bounds { e.0 < length (elements_of elements.now).names }
    ensures { result ≡ get_or (elements_of elements.now).depths e.0 0 }
{
    element_cell(elements, e.0, 2)
}

// One cell of text t: kind or value.
fn text_cell(elements: &[u64], t: usize, field: usize) -> u64
    requires good_elements { GoodElements elements.now }
    requires t_in_bounds { t < length (elements_of elements.now).texts }
    requires field_lt_text_width { field < text_width }
    ensures { result ≡ get_or (text_cells (get_or (elements_of elements.now).texts t (enum_number 0))) field 0 }
{
    elements[TEXTS_AT + (t * TEXT_WIDTH + field)]
}

pub fn text_at(elements: &[u64], t: usize) -> StoredText
    requires good_elements { GoodElements elements.now }
    requires t_in_bounds { t < length (elements_of elements.now).texts }
    ensures is { stored_is result ≡ get_or (elements_of elements.now).texts t (enum_number 0) }
    ensures fits { StoredFits result }
{
    StoredText::from_cells(text_cell(elements, t, 0), text_cell(elements, t, 1))
}

// One cell of tree t: file or root.
fn tree_cell(elements: &[u64], t: usize, field: usize) -> u64
    requires good_elements { GoodElements elements.now }
    requires t_in_bounds { t < length (elements_of elements.now).trees }
    requires field_lt_tree_width { field < tree_width }
    ensures { result ≡ get_or (tree_cells (get_or (elements_of elements.now).trees t no_tree)) field 0 }
{
    elements[TREES_AT + (t * TREE_WIDTH + field)]
}

pub fn tree_file(elements: &[u64], t: usize) -> FileNumber
    requires good_elements { GoodElements elements.now }
    requires t_in_bounds { t < length (elements_of elements.now).trees }
    ensures { result.0 ≡ (get_or (elements_of elements.now).trees t no_tree).file }
{
    FileNumber(tree_cell(elements, t, 0))
}

pub fn tree_root(elements: &[u64], t: usize) -> Element
    requires good_elements { GoodElements elements.now }
    requires t_in_bounds { t < length (elements_of elements.now).trees }
    ensures { result.0 ≡ (get_or (elements_of elements.now).trees t no_tree).root }
{
    Element(tree_cell(elements, t, 1) as usize)
}

pub fn add_element_row(elements: &mut [u64], n: Name, t: TypeNumber, depth: u64)
    requires good_elements { GoodElements elements.old }
    requires elements_len_bound { length (elements_of elements.old).names < element_limit }
    ensures { HoldsElements elements.new (add_element (elements_of elements.old) n.0 t.0 depth) }
{
    let m = element_count(elements);
    push_row(elements, 0, ELEMENTS_AT, m, &[n.0, t.0 as u64, depth]);
}

pub fn add_text(elements: &mut [u64], t: StoredText)
    requires good_elements { GoodElements elements.old }
    requires elements_len_bound { length (elements_of elements.old).texts < item_limit }
    requires stored_fits { StoredFits t }
    ensures { HoldsElements elements.new (add_text (elements_of elements.old) (stored_is t)) }
{
    let m = text_count(elements);
    push_row(elements, 1, TEXTS_AT, m, &[t.kind(), t.value()]);
}

pub fn add_tree(elements: &mut [u64], f: FileNumber, root: Element)
    requires good_elements { GoodElements elements.old }
    requires elements_len_bound { length (elements_of elements.old).trees < file_limit }
    ensures { HoldsElements elements.new (add_tree (elements_of elements.old) (record { file = f.0; root = root.0 })) }
{
    let m = tree_count(elements);
    push_row(elements, 2, TREES_AT, m, &[f.0, root.0 as u64]);
}
