// M, B, E and C lines.
ghost use Rattle.std.specs.Prelude.{true, false, ◌||◌, ◌≡◌, List, ℕ, ◌+◌, ◌<◌, ◌≤◌, eqb, ltb, length, take, set};
ghost use Rattle.std.proofs.Math.Option.{some};
ghost use Rattle.tables.specs.Cells.{Each};
ghost use Rattle.tables.specs.FileSets.{loaded_files};
ghost use Rattle.tables.specs.Limits.{file_limit, element_limit, depth_limit, item_limit};
ghost use Rattle.tables.specs.Records.{File, child, content_items, add_element, add_to_model};
ghost use Rattle.tables.specs.ElementsTable.{elements_of, GoodElements, HoldsElements};
ghost use Rattle.tables.specs.ModelTable.{parent_is, item_is, count_of, model_of, ItemBelow, GoodModel, HoldsModel};
ghost use Rattle.tables.specs.SchemaTable.{schema_of, GoodSchema, mode_from};
ghost use Rattle.tables.specs.SetCells.{set_is};
ghost use Rattle.tables.specs.Texts.{stored_is, StoredFits};
ghost use Rattle.deck.specs.Load.{Loading, load_m, may_wait, load_b, owner, root_set_rule, set_rule, append, load_root, load_child, load_e, takes_text, load_c};
ghost use Rattle.load.specs.Lines.{loading_of, open_limit, GoodLoading, StepResult};
ghost use Rattle.load.specs.declared.progress.Progress.{Progress};

use crate::progress::{Kind, Progress, in_order};
use crate::refusals::Refusal;
use deck::lines::{ElementCells, TextCells};
use schema_calls::calls::row_of_name;
use schema_calls::files::{declared_files, declares_file, has_tree};
use schema_calls::rules::type_declared;
use tables::elements::{
    add_element_row, add_text, add_tree, element_count, element_type, text_count, tree_count,
};
use tables::file_set::FileSet;
use tables::limits::{DEPTH_LIMIT, ELEMENT_LIMIT, ITEM_LIMIT};
use tables::model::{Item, add_element, count, insert_item, item_total, list_length, set_of};
use tables::numbers::{Element, FileNumber, Name, ROOT, TypeNumber};
use tables::schema::{CHARACTERS, MIXED, row_child, type_mode};

// After an M or B line: a root is due, and nothing is open.
fn open_tree(p: Progress, kind: Kind, seen: bool) -> Progress
    ensures { result ≡ record { latest = kind; seen = seen; due = true; depth = 0; above = p.above } }
{
    Progress {
        latest: kind,
        seen,
        due: true,
        depth: 0,
        ..p
    }
}

// `M`: one M tree.
pub fn load_m(p: Progress) -> Result<Progress, Refusal>
    ensures { (schema elements model : List ℕ) → GoodLoading p schema elements model → StepResult p result schema elements model (load_m (loading_of p schema elements model)) }
{
    let q = in_order(p, Kind::M)?;
    if p.latest == Kind::M {
        return Err(Refusal::TreeRule);
    }
    Ok(open_tree(q, Kind::M, true))
}

// The root's set; none where there is no root.
fn loaded_files(model: &[u64]) -> FileSet
    requires { GoodModel model.now }
    ensures { set_is result ≡ loaded_files (model_of model.now) }
{
    if count(model) == 0 {
        return FileSet::none();
    }
    set_of(model, ROOT)
}

// The file is declared, outside the root's set, and has no tree yet.
#[tactic(auto, unfolding(deck::specs::Load::may_wait))]
fn may_wait(schema: &[u64], elements: &[u64], model: &[u64], f: FileNumber) -> bool
    requires good_schema { GoodSchema schema.now }
    requires good_elements { GoodElements elements.now }
    requires good_model { GoodModel model.now }
    ensures { (p : Progress) → result ≡ may_wait (loading_of p schema.now elements.now model.now) f.0 }
{
    declares_file(schema, f) && !loaded_files(model).holds(f) && !has_tree(elements, f)
}

// `B,file`: the root is the next element.
pub fn load_b(
    schema: &[u64],
    elements: &mut [u64],
    model: &[u64],
    p: Progress,
    f: FileNumber,
) -> Result<Progress, Refusal>
    requires good_loading { GoodLoading p schema.now elements.old model.now }
    requires f_lt_file_limit { f.0 < file_limit }
    ensures { StepResult p result schema.now elements.new model.now (load_b (loading_of p schema.now elements.old model.now) f.0) }
{
    if p.due || !may_wait(schema, elements, model, f) {
        return Err(Refusal::TreeRule);
    }
    let root = element_count(elements);
    add_tree(elements, f, Element(root));
    Ok(open_tree(p, Kind::B, p.seen))
}

// The latest E one level up, if no E of smaller depth came between.
fn owner(p: Progress, d: u64) -> Option<Element>
    requires { (p.depth ≤ open_limit) × (length p.above ≡ open_limit) }
    ensures { (l : Loading) → l.above ≡ take p.depth p.above → parent_is result ≡ owner l d }
{
    let n = p.depth as u64;
    if d == 0 {
        return None;
    }
    if n < d {
        return None;
    }
    let i = (d - 1) as usize;
    Some(Element(p.above[i]))
}

// The item at the end of the element's list.
fn append_item(model: &mut [u64], e: Element, a: Item)
    requires good_model { GoodModel model.old }
    requires e_bound { e.0 < count_of (model_of model.old) }
    requires model_bound { content_items (model_of model.old) < item_limit }
    requires item_below { ItemBelow (count_of (model_of model.old)) (item_is a) }
    ensures { HoldsModel model.new (append (model_of model.old) e.0 (item_is a)) }
{
    let n = list_length(model, e);
    insert_item(model, e, n, a);
}

// The element open at this depth, and no deeper one.
fn open_element(p: Progress, d: usize, e: usize) -> Progress
    requires d_lt_open_limit { d < open_limit }
    requires above_len { length p.above ≡ open_limit }
    ensures { result ≡ record { latest = p.latest; seen = p.seen; due = false; depth = d + 1; above = set p.above d e } }
{
    let mut above = p.above;
    above[d] = e;
    Progress {
        due: false,
        depth: d + 1,
        above,
        ..p
    }
}

// The model root's set is not 0 and names declared files; a waiting root's is 0.
#[tactic(auto, unfolding(deck::specs::Load::root_set_rule, deck::specs::Load::in_model))]
fn root_set_rule(schema: &[u64], p: Progress, s: FileSet) -> bool
    requires good_schema { GoodSchema schema.now }
    requires each { Each (λ (d : File). d.file < file_limit) (schema_of schema.now).files }
    ensures { (elements model : List ℕ) → result ≡ root_set_rule (loading_of p schema.now elements model) (set_is s) }
{
    if p.latest != Kind::M {
        return s.is_empty();
    }
    !s.is_empty() && s.part_of(declared_files(schema))
}

// Other model sets are parts of the root's; waiting sets are 0.
#[tactic(auto, unfolding(deck::specs::Load::set_rule, deck::specs::Load::in_model))]
fn set_rule(model: &[u64], p: Progress, s: FileSet) -> bool
    requires { GoodModel model.now }
    ensures { (schema elements : List ℕ) → result ≡ set_rule (loading_of p schema elements model.now) (set_is s) }
{
    if p.latest != Kind::M {
        return s.is_empty();
    }
    s.part_of(loaded_files(model))
}

// A root: depth 0, name 0, type 0.
fn load_root(
    schema: &[u64],
    elements: &mut [u64],
    model: &mut [u64],
    p: Progress,
    c: ElementCells,
) -> Result<Progress, Refusal>
    requires good_loading { GoodLoading p schema.now elements.old model.old }
    requires elements_len_bound { length (elements_of elements.old).names < element_limit }
    ensures { StepResult p result schema.now elements.new model.new (load_root (loading_of p schema.now elements.old model.old) c.depth c.name.0 (set_is c.set)) }
{
    if c.depth != 0 || c.name.0 != 0 {
        return Err(Refusal::TreeRule);
    }
    if !type_declared(schema, TypeNumber(0)) {
        return Err(Refusal::SchemaRule);
    }
    if !root_set_rule(schema, p, c.set) {
        return Err(Refusal::TreeRule);
    }
    let e = element_count(elements);
    add_element_row(elements, Name(0), TypeNumber(0), 0);
    add_element(model, None, c.set);
    Ok(open_element(p, 0, e))
}

// An element below its owner, of the type that the row gives.
fn add_child(
    elements: &mut [u64],
    model: &mut [u64],
    owner: Element,
    t: TypeNumber,
    c: ElementCells,
)
    requires good_elements { GoodElements elements.old }
    requires good_model { GoodModel model.old }
    requires elements_len_bound { length (elements_of elements.old).names < element_limit }
    requires model_value { count_of (model_of model.old) ≡ length (elements_of elements.old).names }
    requires owner_bound { owner.0 < count_of (model_of model.old) }
    requires model_bound { content_items (model_of model.old) < item_limit }
    ensures holds_elements { HoldsElements elements.new (add_element (elements_of elements.old) c.name.0 t.0 c.depth) }
    ensures holds_model { HoldsModel model.new (add_to_model (append (model_of model.old) owner.0 (child (length (elements_of elements.old).names))) (some owner.0) (set_is c.set)) }
{
    let e = element_count(elements);
    add_element_row(elements, c.name, t, c.depth);
    add_element(model, Some(owner), c.set);
    append_item(model, owner, Item::Child(Element(e)));
}

// Every other E: its name has a row in its owner's type.
fn load_child(
    schema: &[u64],
    elements: &mut [u64],
    model: &mut [u64],
    p: Progress,
    c: ElementCells,
) -> Result<Progress, Refusal>
    requires good_loading { GoodLoading p schema.now elements.old model.old }
    requires elements_len_bound { length (elements_of elements.old).names < element_limit }
    requires depth_le_depth_limit { c.depth ≤ depth_limit }
    requires item_limit_value { (eqb c.depth 0 || ltb (content_items (model_of model.old)) item_limit) ≡ true }
    ensures { StepResult p result schema.now elements.new model.new (load_child (loading_of p schema.now elements.old model.old) c.depth c.name.0 (set_is c.set)) }
{
    let Some(o) = owner(p, c.depth) else {
        return Err(Refusal::TreeRule);
    };
    let t = element_type(elements, o);
    let Some(i) = row_of_name(schema, t, c.name) else {
        return Err(Refusal::TreeRule);
    };
    if !set_rule(model, p, c.set) {
        return Err(Refusal::TreeRule);
    }
    let e = element_count(elements);
    let d = c.depth as usize;
    add_child(elements, model, o, row_child(schema, i), c);
    Ok(open_element(p, d, e))
}

// `E,depth,name,set`
pub fn load_e(
    schema: &[u64],
    elements: &mut [u64],
    model: &mut [u64],
    p: Progress,
    c: ElementCells,
) -> Result<Progress, Refusal>
    requires { GoodLoading p schema.now elements.old model.old }
    ensures { StepResult p result schema.now elements.new model.new (load_e (loading_of p schema.now elements.old model.old) c.depth c.name.0 (set_is c.set)) }
{
    if DEPTH_LIMIT < c.depth {
        return Err(Refusal::Limit);
    }
    if ELEMENT_LIMIT <= element_count(elements) {
        return Err(Refusal::Limit);
    }
    if c.depth != 0 && ITEM_LIMIT <= item_total(model) {
        return Err(Refusal::Limit);
    }
    if p.due {
        return load_root(schema, elements, model, p, c);
    }
    load_child(schema, elements, model, p, c)
}

// Mixed and characters.
#[tactic(auto, unfolding(deck::specs::Load::takes_text))]
fn takes_text(mode: u64) -> bool
    requires { mode < 5 }
    ensures { result ≡ takes_text (mode_from mode) }
{
    matches!(mode, MIXED | CHARACTERS)
}

// `C,depth,kind,value`
pub fn load_c(
    schema: &[u64],
    elements: &mut [u64],
    model: &mut [u64],
    p: Progress,
    c: TextCells,
) -> Result<Progress, Refusal>
    requires good_loading { GoodLoading p schema.now elements.old model.old }
    requires stored_fits { StoredFits c.text }
    ensures { StepResult p result schema.now elements.new model.new (load_c (loading_of p schema.now elements.old model.old) c.depth (stored_is c.text)) }
{
    if DEPTH_LIMIT < c.depth {
        return Err(Refusal::Limit);
    }
    if ITEM_LIMIT <= item_total(model) {
        return Err(Refusal::Limit);
    }
    if p.due {
        return Err(Refusal::TreeRule);
    }
    let Some(o) = owner(p, c.depth) else {
        return Err(Refusal::TreeRule);
    };
    let t = element_type(elements, o);
    if !takes_text(type_mode(schema, t)) {
        return Err(Refusal::TreeRule);
    }
    let n = text_count(elements);
    add_text(elements, c.text);
    append_item(model, o, Item::Text(n));
    Ok(p)
}
