// Import of one element into the content list of an A parent.
ghost use Rattle.std.specs.Prelude.{true, List, ◌≡◌, ℕ, ◌+◌, ◌*◌, ◌<◌, ◌≤◌, length};
ghost use Rattle.tables.specs.Cells.{Each};
ghost use Rattle.tables.specs.ElementsTable.{elements_of, GoodElements};
ghost use Rattle.tables.specs.Limits.{item_limit, log_limit, file_limit, version_limit};
ghost use Rattle.tables.specs.LogTable.{log_of, GoodLog};
ghost use Rattle.tables.specs.ModelTable.{count_of, model_of, GoodModel};
ghost use Rattle.tables.specs.Records.{content_items, list_of};
ghost use Rattle.tables.specs.SchemaTable.{schema_of, GoodSchema};
ghost use Rattle.state_test.specs.StateTest.{fixed_in, state_in};
ghost use Rattle.merge_rules.specs.Import.{import_at, clamp, import_single_item, import_new_items};
ghost use Rattle.merge_log.specs.Answers.{outcome_is};
ghost use Rattle.imports.specs.Imports.{Enters, ImportsInto, row_place, FollowOn, RunOf, Together, RowsTogether};
ghost use Rattle.insert_range.specs.Range.{AnyPlace};
ghost use Rattle.merge_log.specs.Runs.{RunIn};
ghost use Rattle.pairing.specs.Plans.{spread, import_in, plan_in, RowsIn};
ghost use Rattle.table_test.specs.Fits.{ModelOver, LogFits, KeepsState};

use insert_range::range::{Unplaced, calc_element_insert_range, takes_any_place};
use merge_log::log::{Run, has_room};
use merge_log::refusals::{Halt, Refusal};
use pairing::plan::Rows;
use schema_calls::calls::find_sub_element;
use tables::elements::{element_name, element_type};
use tables::limits::ITEM_LIMIT;
use tables::log::{Entry, push_entry};
use tables::model::{
    Item, insert_items, item_total, list_length, parent_of, put_item, set_of, set_parent, set_set,
};
use tables::numbers::{Element, FileNumber};

// The log keeps the element's old parent and set. It stands at this place of p's list in place of what stood there, has the parent p and the file in its set.
fn enter(model: &mut [u64], log: &mut [u64], f: FileNumber, p: Element, e: Element, at: usize)
    requires good_model { GoodModel model.old }
    requires good_log { GoodLog log.old }
    requires log_len_bound { length (log_of log.old) < log_limit }
    requires p_bound { p.0 < count_of (model_of model.old) }
    requires e_bound { e.0 < count_of (model_of model.old) }
    requires at_in_bounds { at < length (list_of (model_of model.old) p.0) }
    requires f_lt_file_limit { f.0 < file_limit }
    ensures { Enters f.0 p.0 e.0 at model.old log.old model.new log.new }
{
    let parent = parent_of(model, e);
    let set = set_of(model, e);
    push_entry(log, Entry::Import(e, p, parent, set));
    put_item(model, p, at, Item::Child(e));
    set_parent(model, e, Some(p));
    set_set(model, e, set.with(f));
}

// The element is put in at this place of p's list, or refusal 9 or 10.
pub fn import_at(
    model: &mut [u64],
    log: &mut [u64],
    f: FileNumber,
    p: Element,
    e: Element,
    at: usize,
) -> Result<(), Halt>
    requires good_model { GoodModel model.old }
    requires good_log { GoodLog log.old }
    requires p_bound { p.0 < count_of (model_of model.old) }
    requires e_bound { e.0 < count_of (model_of model.old) }
    requires at_in_bounds { at ≤ length (list_of (model_of model.old) p.0) }
    requires f_lt_file_limit { f.0 < file_limit }
    ensures log_after { outcome_is result (state_in model.new log.new) ≡ import_at f.0 p.0 e.0 at (state_in model.old log.old) }
    ensures keeps_state { KeepsState model.old log.old model.new log.new }
{
    // 9 comes before 10.
    has_room(log)?;
    if ITEM_LIMIT <= item_total(model) {
        return Err(Refusal::ContentFull.into());
    }
    insert_items(model, p, at, 1, Item::Child(e));
    enter(model, log, f, p, e, at);
    Ok(())
}

// The wanted place, not before the first and not behind the last.
#[tactic(auto, unfolding(merge_rules::specs::Import::clamp))]
pub fn clamp(wanted: usize, first: usize, last: usize) -> usize
    ensures { result ≡ clamp wanted first last }
{
    wanted.max(first).min(last)
}

// The range of p for the element's name decides: its place, 7, or a conflict.
pub fn import_single_item(
    schema: &[u64],
    elements: &[u64],
    model: &mut [u64],
    log: &mut [u64],
    f: FileNumber,
    v: u64,
    p: Element,
    e: Element,
    wanted: usize,
) -> Result<(), Halt>
    requires good_schema { GoodSchema schema.now }
    requires good_elements { GoodElements elements.now }
    requires each { Each (λ (t : ℕ). t < length (schema_of schema.now).types) (elements_of elements.now).types }
    requires model_over { ModelOver elements.now model.old }
    requires good_log { GoodLog log.old }
    requires f_lt_file_limit { f.0 < file_limit }
    requires v_lt_version_limit { v < version_limit }
    requires p_in_bounds { p.0 < length (elements_of elements.now).names }
    requires e_in_bounds { e.0 < length (elements_of elements.now).names }
    ensures by_index { (deck : List ℕ) → outcome_is result (state_in model.new log.new) ≡ import_single_item (fixed_in deck schema.now elements.now) f.0 v p.0 e.0 wanted (state_in model.old log.old) }
    ensures keeps_state { KeepsState model.old log.old model.new log.new }
{
    let n = element_name(elements, e);
    let r = calc_element_insert_range(schema, elements, model, p, n, v);
    match r {
        Ok(places) => {
            let at = clamp(wanted, places.first, places.last);
            import_at(model, log, f, p, e, at)
        }
        Err(Unplaced::NoRow) => Err(Refusal::NotInVersion(p, n).into()),
        Err(Unplaced::Conflicting) => Err(Halt::Conflict(p)),
    }
}

// The next of the places that a run has for new items takes the element: 7, 9, or its import.
fn import_into(
    schema: &[u64],
    elements: &[u64],
    model: &mut [u64],
    log: &mut [u64],
    f: FileNumber,
    v: u64,
    r: Run,
    e: Element,
) -> Result<(), Halt>
    requires good_schema { GoodSchema schema.now }
    requires good_elements { GoodElements elements.now }
    requires each { Each (λ (t : ℕ). t < length (schema_of schema.now).types) (elements_of elements.now).types }
    requires model_over { ModelOver elements.now model.old }
    requires good_log { GoodLog log.old }
    requires f_lt_file_limit { f.0 < file_limit }
    requires v_lt_version_limit { v < version_limit }
    requires any_place { AnyPlace schema.now elements.now r.p.0 }
    requires run_in { RunIn (model_of model.old) r }
    requires k_nonzero { 0 < r.k }
    requires p_in_bounds { r.p.0 < length (elements_of elements.now).names }
    requires e_in_bounds { e.0 < length (elements_of elements.now).names }
    ensures { ImportsInto schema.now elements.now f.0 v r e.0 result model.old log.old model.new log.new }
{
    let p = r.p;
    let n = element_name(elements, e);
    let t = element_type(elements, p);
    find_sub_element(schema, t, n, 1u64 << v).ok_or(Refusal::NotInVersion(p, n))?;
    has_room(log)?;
    enter(model, log, f, p, e, r.i);
    Ok(())
}

// Rows of the B-only list from i on, as many as the run has places; room is made for all of them at once.
fn import_run(
    schema: &[u64],
    elements: &[u64],
    model: &mut [u64],
    log: &mut [u64],
    work: &[u16],
    rows: Rows,
    i: usize,
    f: FileNumber,
    v: u64,
    r: Run,
) -> Result<(), Halt>
    requires good_schema { GoodSchema schema.now }
    requires good_elements { GoodElements elements.now }
    requires each { Each (λ (t : ℕ). t < length (schema_of schema.now).types) (elements_of elements.now).types }
    requires model_over { ModelOver elements.now model.old }
    requires log_fits { LogFits (length (elements_of elements.now).names) log.old }
    requires rows_in { RowsIn (length (elements_of elements.now).names) work.now rows.first (i + r.k) }
    requires f_lt_file_limit { f.0 < file_limit }
    requires v_lt_version_limit { v < version_limit }
    requires p_in_bounds { r.p.0 < length (elements_of elements.now).names }
    requires any_place { AnyPlace schema.now elements.now r.p.0 }
    requires k_bound { content_items (model_of model.old) + r.k ≤ item_limit }
    requires i_in_bounds { r.i ≤ length (list_of (model_of model.old) r.p.0) }
    requires follow_on { FollowOn work.now rows.first i r.k (length (list_of (model_of model.old) r.p.0)) r.i }
    ensures by_index { (deck : List ℕ) → outcome_is result (state_in model.new log.new) ≡ import_new_items (fixed_in deck schema.now elements.now) f.0 v r.p.0 i (spread (import_in work.now) (rows.first + i) r.k) (state_in model.old log.old) }
    ensures keeps_state { KeepsState model.old log.old model.new log.new }
{
    let p = r.p;
    insert_items(model, p, r.i, r.k, Item::Child(p));
    for j in 0..r.k {
        let row = 2 * (rows.first + i + j);
        let e = Element(work[row] as usize);
        let left = Run {
            p,
            i: r.i + j,
            k: r.k - j,
        };
        import_into(schema, elements, model, log, f, v, left, e)?;
    }
    Ok(())
}

// Where row i of the B-only list goes in a list of n items that takes it at any place.
fn row_place(work: &[u16], rows: Rows, i: usize, n: usize) -> usize
    requires i_in_bounds { 2 * (rows.first + i) + 1 < length work.now }
    requires i_bound { i ≤ 2 * item_limit }
    ensures { result ≡ row_place work.now rows.first i n }
{
    let row = 2 * (rows.first + i);
    let wanted = work[row + 1] as usize + i;
    clamp(wanted, 0, n)
}

// How many rows from i on go one behind the other into a list of n items that takes them at any place, as far as there is room.
fn run_length(work: &[u16], rows: Rows, i: usize, n: usize, room: usize) -> usize
    requires new_in_bounds { 2 * (rows.first + rows.new) ≤ length work.now }
    requires new_bound { rows.first + rows.new ≤ 2 * item_limit }
    requires n_le_item_limit { n ≤ item_limit }
    requires i_lt_new { i < rows.new }
    ensures { RunOf work.now rows.first rows.new i n room result }
{
    let at = row_place(work, rows, i, n);
    for k in 1..rows.new - i {
        if room <= k {
            return k;
        }
        let next = row_place(work, rows, i + k, n + k);
        if next != at + k {
            return k;
        }
    }
    rows.new - i
}

// k rows of the B-only list from i on: one by itself, or several that go one behind the other.
fn import_rows(
    schema: &[u64],
    elements: &[u64],
    model: &mut [u64],
    log: &mut [u64],
    work: &[u16],
    rows: Rows,
    i: usize,
    k: usize,
    f: FileNumber,
    v: u64,
    p: Element,
) -> Result<(), Halt>
    requires good_schema { GoodSchema schema.now }
    requires good_elements { GoodElements elements.now }
    requires each { Each (λ (t : ℕ). t < length (schema_of schema.now).types) (elements_of elements.now).types }
    requires model_over { ModelOver elements.now model.old }
    requires log_fits { LogFits (length (elements_of elements.now).names) log.old }
    requires rows_in { RowsIn (length (elements_of elements.now).names) work.now rows.first (i + k) }
    requires f_lt_file_limit { f.0 < file_limit }
    requires v_lt_version_limit { v < version_limit }
    requires p_in_bounds { p.0 < length (elements_of elements.now).names }
    requires k_nonzero { 0 < k }
    requires any_place { 1 < k → AnyPlace schema.now elements.now p.0 × Together model.old work.now rows.first i k p.0 }
    ensures by_index { (deck : List ℕ) → outcome_is result (state_in model.new log.new) ≡ import_new_items (fixed_in deck schema.now elements.now) f.0 v p.0 i (spread (import_in work.now) (rows.first + i) k) (state_in model.old log.old) }
    ensures keeps_state { KeepsState model.old log.old model.new log.new }
{
    if k == 1 {
        let row = 2 * (rows.first + i);
        let e = Element(work[row] as usize);
        let wanted = work[row + 1] as usize + i;
        return import_single_item(schema, elements, model, log, f, v, p, e, wanted);
    }
    let at = row_place(work, rows, i, list_length(model, p));
    import_run(
        schema,
        elements,
        model,
        log,
        work,
        rows,
        i,
        f,
        v,
        Run { p, i: at, k },
    )
}

// How many rows from i on are imported together: one, if not any place of p's list will do.
fn rows_together(model: &[u64], work: &[u16], rows: Rows, i: usize, p: Element, any: bool) -> usize
    requires good_model { GoodModel model.now }
    requires p_bound { p.0 < count_of (model_of model.now) }
    requires new_in_bounds { 2 * (rows.first + rows.new) ≤ length work.now }
    requires new_bound { rows.first + rows.new ≤ 2 * item_limit }
    requires i_lt_new { i < rows.new }
    ensures { RowsTogether model.now work.now rows.first rows.new i p.0 any result }
{
    if !any {
        return 1;
    }
    let n = list_length(model, p);
    let room = ITEM_LIMIT - item_total(model);
    run_length(work, rows, i, n, room)
}

// The B-only list of a plan in order: each element is wanted at its position and its index in the list.
pub fn import_new_items(
    schema: &[u64],
    elements: &[u64],
    model: &mut [u64],
    log: &mut [u64],
    work: &[u16],
    rows: Rows,
    f: FileNumber,
    v: u64,
    p: Element,
) -> Result<(), Halt>
    requires good_schema { GoodSchema schema.now }
    requires good_elements { GoodElements elements.now }
    requires each { Each (λ (t : ℕ). t < length (schema_of schema.now).types) (elements_of elements.now).types }
    requires model_over { ModelOver elements.now model.old }
    requires log_fits { LogFits (length (elements_of elements.now).names) log.old }
    requires rows_in { RowsIn (length (elements_of elements.now).names) work.now rows.first rows.new }
    requires f_lt_file_limit { f.0 < file_limit }
    requires v_lt_version_limit { v < version_limit }
    requires p_in_bounds { p.0 < length (elements_of elements.now).names }
    ensures by_index { (deck : List ℕ) → outcome_is result (state_in model.new log.new) ≡ import_new_items (fixed_in deck schema.now elements.now) f.0 v p.0 0 (plan_in rows.first rows.new work.now).imports (state_in model.old log.old) }
    ensures keeps_state { KeepsState model.old log.old model.new log.new }
{
    let any = takes_any_place(schema, elements, p);
    let mut i: usize = 0;
    // No `for`: the rows that are imported together are passed at once.
    while i < rows.new {
        let k = rows_together(model, work, rows, i, p, any);
        import_rows(schema, elements, model, log, work, rows, i, k, f, v, p)?;
        i += k;
    }
    Ok(())
}
