// Level and Pairs, which call each other, one depth lower each time.
ghost use Rattle.std.specs.Prelude.{true, List, [], ◌≡◌, ℕ, ◌+◌, ◌*◌, ◌<◌, ◌≤◌, length, IfSome, IfNone};
ghost use Rattle.tables.specs.Cells.{Each};
ghost use Rattle.tables.specs.ElementsTable.{elements_of, GoodElements};
ghost use Rattle.tables.specs.Limits.{file_limit};
ghost use Rattle.tables.specs.LogTable.{GoodLog};
ghost use Rattle.tables.specs.ModelTable.{count_of, model_of, GoodModel};
ghost use Rattle.tables.specs.Records.{list_of};
ghost use Rattle.tables.specs.SchemaTable.{schema_of, GoodSchema};
ghost use Rattle.tables.specs.SetCells.{set_is};
ghost use Rattle.table_test.specs.Fits.{LogFits, StateOver, KeepsState};
ghost use Rattle.table_test.specs.SchemaTest.{TestedSchema};
ghost use Rattle.deck.specs.Schema.{version_of, least_version};
ghost use Rattle.state_test.specs.StateTest.{fixed_in, state_in};
ghost use Rattle.merge_rules.specs.Level.{files_of_pair, restrict_elements, merge_sub_elements, level_version, merge_element};
ghost use Rattle.merge_rules.specs.Pairing.{children_of};
ghost use Rattle.pairing.specs.Plans.{plan_in, row_value, RowsIn};
ghost use Rattle.merge_log.specs.Answers.{outcome_is};
ghost use Rattle.level.specs.Lent.{fixed_of};
ghost use Rattle.level.specs.Level.{restrict_new, apply_plan, merge_pair, Bare};

use crate::lent::Fixed;
use imports::import::import_new_items;
use merge_log::log::restrict;
use merge_log::refusals::{Halt, Refusal};
use pairing::lent::Tables;
use pairing::plan::{Rows, Unplanned};
use pairing::walk::plan_level;
use pairs::settle::{extend_pair, files_of_pair, settle};
use schema_calls::files::least_version;
use tables::file_set::FileSet;
use tables::limits::ITEM_LIMIT;
use tables::log::log_length;
use tables::model::{Item, item_at, list_length, set_of};
use tables::numbers::{Element, FileNumber};

// What is merged into a level: the new file and its version, beside the files of the level.
#[derive(Clone, Copy)]
pub struct Delivery {
    pub file: FileNumber,
    pub version: u64,
    pub files: FileSet,
}

// Cells for the plan of any level.
const WORK_SIZE: usize = 7 * ITEM_LIMIT;

// Cells for the plan of the level of a and b.
fn level_room(model: &[u64], a: Element, b: Element) -> usize
    requires good_model { GoodModel model.now }
    requires a_bound { a.0 < count_of (model_of model.now) }
    requires b_bound { b.0 < count_of (model_of model.now) }
    ensures { result ≡ 2 * length (list_of (model_of model.now) a.0) + 5 * length (list_of (model_of model.now) b.0) }
{
    2 * list_length(model, a) + 5 * list_length(model, b)
}

// True only where the element lists no element: its list is empty, or one text.
fn is_leaf(model: &[u64], e: Element) -> bool
    requires good_model { GoodModel model.now }
    requires e_bound { e.0 < count_of (model_of model.now) }
    ensures { result ≡ true → children_of (model_of model.now) e.0 ≡ [] }
{
    match list_length(model, e) {
        0 => true,
        1 => matches!(item_at(model, e, 0), Item::Text(_)),
        _ => false,
    }
}

// True only where the level of a and b, at this depth, changes nothing.
fn is_bare(model: &[u64], a: Element, b: Element, depth: usize) -> bool
    requires good_model { GoodModel model.now }
    requires a_bound { a.0 < count_of (model_of model.now) }
    requires b_bound { b.0 < count_of (model_of model.now) }
    ensures { result ≡ true → Bare depth (model_of model.now) a.0 b.0 }
{
    depth != 0 && is_leaf(model, a) && is_leaf(model, b)
}

// The mate of the child of A in row i of a plan.
fn mate(work: &[u16], i: usize) -> Option<Element>
    requires { 2 * i + 1 < length work.now }
    ensures paired { IfSome result (λ b. row_value work.now i ≡ b.0 + 1) }
    ensures alone { IfNone result (row_value work.now i ≡ 0) }
{
    match work[2 * i + 1] {
        0 => None,
        b => Some(Element(b as usize - 1)),
    }
}

// An A-only element without a set gets the level's files; an empty set is none, in the tables as in the rules.
fn restrict_new(model: &mut [u64], log: &mut [u64], a: Element, files: FileSet) -> Result<(), Halt>
    requires good_model { GoodModel model.old }
    requires good_log { GoodLog log.old }
    requires a_bound { a.0 < count_of (model_of model.old) }
    ensures log_after { outcome_is result (state_in model.new log.new) ≡ restrict_new (set_is files) a.0 (state_in model.old log.old) }
    ensures keeps_state { KeepsState model.old log.old model.new log.new }
{
    let own = set_of(model, a);
    if own.is_empty() {
        return restrict(model, log, a, files);
    }
    Ok(())
}

// The A-only elements of a plan, in order.
fn restrict_elements(
    model: &mut [u64],
    log: &mut [u64],
    work: &[u16],
    na: usize,
    files: FileSet,
) -> Result<(), Halt>
    requires good_model { GoodModel model.old }
    requires log_fits { LogFits (count_of (model_of model.old)) log.old }
    requires rows_in { RowsIn (count_of (model_of model.old)) work.now na 0 }
    ensures log_after { outcome_is result (state_in model.new log.new) ≡ restrict_elements (set_is files) (plan_in na 0 work.now).restrictions (state_in model.old log.old) }
    ensures keeps_state { KeepsState model.old log.old model.new log.new }
{
    for i in 0..na {
        if mate(work, i).is_some() {
            continue;
        }
        let a = Element(work[2 * i] as usize);
        restrict_new(model, log, a, files)?;
    }
    Ok(())
}

// The restrictions and imports of a plan, imports in the new file's version.
fn apply_plan(
    schema: &[u64],
    elements: &[u64],
    model: &mut [u64],
    log: &mut [u64],
    work: &[u16],
    rows: Rows,
    d: Delivery,
    a: Element,
) -> Result<(), Halt>
    requires tested_schema { TestedSchema schema.now }
    requires good_elements { GoodElements elements.now }
    requires each { Each (λ (t : ℕ). t < length (schema_of schema.now).types) (elements_of elements.now).types }
    requires state_over { StateOver elements.now model.old log.old }
    requires rows_in { RowsIn (length (elements_of elements.now).names) work.now rows.first rows.new }
    requires f_lt_file_limit { d.file.0 < file_limit }
    requires version_value { d.version ≡ version_of (schema_of schema.now) d.file.0 }
    requires a_in_bounds { a.0 < length (elements_of elements.now).names }
    ensures by_index { (deck : List ℕ) → outcome_is result (state_in model.new log.new) ≡ apply_plan (fixed_in deck schema.now elements.now) d.file.0 (set_is d.files) a.0 (plan_in rows.first rows.new work.now) (state_in model.old log.old) }
    ensures keeps_state { KeepsState model.old log.old model.new log.new }
{
    restrict_elements(model, log, work, rows.first, d.files)?;
    import_new_items(
        schema, elements, model, log, work, rows, d.file, d.version, a,
    )
}

// The version of a pair's level: A without a set has the files of the level above, and so its version.
fn pair_version(schema: &[u64], model: &[u64], version: u64, v: u64, a: Element) -> u64
    requires good_schema { GoodSchema schema.now }
    requires good_model { GoodModel model.now }
    requires a_bound { a.0 < count_of (model_of model.now) }
    ensures { (files : ℕ) → v ≡ least_version (schema_of schema.now) files version → result ≡ least_version (schema_of schema.now) (files_of_pair files (model_of model.now) a.0) version }
{
    let own = set_of(model, a);
    if own.is_empty() {
        return v;
    }
    least_version(schema, own, version)
}

// Level with a scratch slice of its own: at the root, and where the plan of a pair has no room in the slice that it was handed.
#[cycle(levels)]
pub fn merge_apart(
    fixed: &Fixed,
    model: &mut [u64],
    log: &mut [u64],
    d: Delivery,
    a: Element,
    b: Element,
    depth: usize,
) -> Result<(), Halt>
    requires state_over { StateOver fixed.now.elements.now model.old log.old }
    requires f_lt_file_limit { d.file.0 < file_limit }
    requires version_value { d.version ≡ version_of (schema_of fixed.now.schema.now) d.file.0 }
    requires a_in_bounds { a.0 < length (elements_of fixed.now.elements.now).names }
    requires b_in_bounds { b.0 < length (elements_of fixed.now.elements.now).names }
    ensures log_after { outcome_is result (state_in model.new log.new) ≡ merge_element depth (fixed_of fixed.now) d.file.0 (set_is d.files) a.0 b.0 (state_in model.old log.old) }
    ensures keeps_state { KeepsState model.old log.old model.new log.new }
{
    let v = least_version(fixed.schema, d.files, d.version);
    let mut work = [0u16; WORK_SIZE];
    merge_element(fixed, model, log, &mut work, d, v, a, b, depth)
}

// Level: b is merged into a, by its plan: restrictions and imports, then pairs. At depth 0, where no listed element is, refusal 6. The answer of the pairs goes through `?`, so that the usual one, Ok, is not copied.
#[cycle(levels)]
fn merge_element(
    fixed: &Fixed,
    model: &mut [u64],
    log: &mut [u64],
    work: &mut [u16],
    d: Delivery,
    v: u64,
    a: Element,
    b: Element,
    depth: usize,
) -> Result<(), Halt>
    requires state_over { StateOver fixed.now.elements.now model.old log.old }
    requires f_lt_file_limit { d.file.0 < file_limit }
    requires version_value { d.version ≡ version_of (schema_of fixed.now.schema.now) d.file.0 }
    requires v_value { v ≡ level_version (fixed_of fixed.now) d.file.0 (set_is d.files) }
    requires a_in_bounds { a.0 < length (elements_of fixed.now.elements.now).names }
    requires b_in_bounds { b.0 < length (elements_of fixed.now.elements.now).names }
    requires b_in_bounds_2 { 2 * length (list_of (model_of model.old) a.0) + 5 * length (list_of (model_of model.old) b.0) ≤ length work.old }
    ensures log_after { outcome_is result (state_in model.new log.new) ≡ merge_element depth (fixed_of fixed.now) d.file.0 (set_is d.files) a.0 b.0 (state_in model.old log.old) }
    ensures keeps_state { KeepsState model.old log.old model.new log.new }
{
    if depth == 0 {
        return Err(Refusal::Unmergeable(a).into());
    }
    let tables = Tables {
        deck: fixed.deck,
        schema: fixed.schema,
        elements: fixed.elements,
        model,
    };
    let rows = match plan_level(&tables, v, a, b, work) {
        Ok(rows) => rows,
        Err(Unplanned::UsedTwice(c)) => return Err(Refusal::UsedTwice(c).into()),
        Err(Unplanned::Unmergeable) => return Err(Refusal::Unmergeable(a).into()),
    };
    apply_plan(fixed.schema, fixed.elements, model, log, work, rows, d, a)?;
    merge_sub_elements(fixed, model, log, work, rows.first, d, v, a, depth - 1)?;
    Ok(())
}

// Pairs, in order. Levels below have the scratch slice behind the rows of A.
#[cycle(levels)]
fn merge_sub_elements(
    fixed: &Fixed,
    model: &mut [u64],
    log: &mut [u64],
    work: &mut [u16],
    na: usize,
    d: Delivery,
    v: u64,
    p: Element,
    depth: usize,
) -> Result<(), Halt>
    requires state_over { StateOver fixed.now.elements.now model.old log.old }
    requires f_lt_file_limit { d.file.0 < file_limit }
    requires version_value { d.version ≡ version_of (schema_of fixed.now.schema.now) d.file.0 }
    requires v_value { v ≡ level_version (fixed_of fixed.now) d.file.0 (set_is d.files) }
    requires p_in_bounds { p.0 < length (elements_of fixed.now.elements.now).names }
    requires rows_in { RowsIn (length (elements_of fixed.now.elements.now).names) work.old na 0 }
    ensures log_after { outcome_is result (state_in model.new log.new) ≡ merge_sub_elements (merge_element depth (fixed_of fixed.now) d.file.0) (fixed_of fixed.now) d.file.0 v p.0 (set_is d.files) (plan_in na 0 work.old).pairs (state_in model.old log.old) }
    ensures keeps_state { KeepsState model.old log.old model.new log.new }
{
    let rows = 2 * na;
    for i in 0..na {
        let Some(b) = mate(work, i) else {
            continue;
        };
        let a = Element(work[2 * i] as usize);
        merge_pair(fixed, model, log, &mut work[rows..], d, v, p, a, b, depth)?;
    }
    Ok(())
}

// One pair: its level, and what becomes of it. The usual answer, Ok, is tested for before it is copied for `settle`.
#[cycle(levels)]
fn merge_pair(
    fixed: &Fixed,
    model: &mut [u64],
    log: &mut [u64],
    work: &mut [u16],
    d: Delivery,
    v: u64,
    p: Element,
    a: Element,
    b: Element,
    depth: usize,
) -> Result<(), Halt>
    requires state_over { StateOver fixed.now.elements.now model.old log.old }
    requires f_lt_file_limit { d.file.0 < file_limit }
    requires version_value { d.version ≡ version_of (schema_of fixed.now.schema.now) d.file.0 }
    requires v_value { v ≡ level_version (fixed_of fixed.now) d.file.0 (set_is d.files) }
    requires p_in_bounds { p.0 < length (elements_of fixed.now.elements.now).names }
    requires a_in_bounds { a.0 < length (elements_of fixed.now.elements.now).names }
    requires b_in_bounds { b.0 < length (elements_of fixed.now.elements.now).names }
    ensures log_after { outcome_is result (state_in model.new log.new) ≡ merge_pair (merge_element depth (fixed_of fixed.now) d.file.0) (fixed_of fixed.now) d.file.0 v p.0 (set_is d.files) (record { a = a.0; b = b.0 }) (state_in model.old log.old) }
    ensures keeps_state { KeepsState model.old log.old model.new log.new }
{
    if is_bare(model, a, b, depth) {
        return extend_pair(model, log, d.file, a);
    }
    let own = files_of_pair(model, d.files, a);
    let lower = Delivery { files: own, ..d };
    let mark = log_length(log);
    if level_room(model, a, b) <= work.len() {
        let own_version = pair_version(fixed.schema, model, d.version, v, a);
        let below = merge_element(fixed, model, log, work, lower, own_version, a, b, depth);
        if below.is_ok() {
            return extend_pair(model, log, d.file, a);
        }
        return settle(
            fixed.deck,
            fixed.schema,
            fixed.elements,
            model,
            log,
            d.file,
            v,
            p,
            a,
            b,
            own,
            mark,
            below,
        );
    }
    let below = merge_apart(fixed, model, log, lower, a, b, depth);
    settle(
        fixed.deck,
        fixed.schema,
        fixed.elements,
        model,
        log,
        d.file,
        v,
        p,
        a,
        b,
        own,
        mark,
        below,
    )
}
