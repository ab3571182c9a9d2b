// What becomes of a pair's level: the extension, or the fallback.
ghost use Rattle.std.specs.Prelude.{List, ◌≡◌, ℕ, ◌<◌, length};
ghost use Rattle.tables.specs.Cells.{Each};
ghost use Rattle.tables.specs.ElementsTable.{elements_of, GoodElements};
ghost use Rattle.tables.specs.Limits.{file_limit, version_limit};
ghost use Rattle.tables.specs.LogTable.{GoodLog};
ghost use Rattle.tables.specs.ModelTable.{count_of, model_of, GoodModel};
ghost use Rattle.tables.specs.SchemaTable.{schema_of, GoodSchema};
ghost use Rattle.tables.specs.SetCells.{set_is};
ghost use Rattle.table_test.specs.Fits.{GoodFixed, StateOver, KeepsState};
ghost use Rattle.state_test.specs.StateTest.{fixed_in, state_in};
ghost use Rattle.merge_rules.specs.Level.{files_of_pair, extend_pair, keyed, place_behind, import_instead, fall_back, settle_conflict, settle};
ghost use Rattle.merge_log.specs.Answers.{outcome_is};
ghost use Rattle.pairing.specs.Lent.{fixed_of, model_in, element_count};

use imports::import::{clamp, import_at};
use insert_range::range::calc_element_insert_range;
use merge_log::log::{extend, place_of, restrict, rollback_merge};
use merge_log::refusals::{Halt, Refusal};
use pairing::keys::{definition_child, is_identifiable};
use pairing::lent::Tables;
use schema_calls::calls::splittable_in;
use tables::elements::{element_name, element_type};
use tables::file_set::FileSet;
use tables::model::set_of;
use tables::numbers::{Element, FileNumber};

// A's own set, else the level's. No Option: the empty set is the one that is not stored, in the tables as in the rules.
pub fn files_of_pair(model: &[u64], files: FileSet, a: Element) -> FileSet
    requires good_model { GoodModel model.now }
    requires a_bound { a.0 < count_of (model_of model.now) }
    ensures { set_is result ≡ files_of_pair (set_is files) (model_of model.now) a.0 }
{
    let own = set_of(model, a);
    if own.is_empty() {
        return files;
    }
    own
}

// An A with a set gains the new file.
pub fn extend_pair(
    model: &mut [u64],
    log: &mut [u64],
    f: FileNumber,
    a: Element,
) -> Result<(), Halt>
    requires good_model { GoodModel model.old }
    requires good_log { GoodLog log.old }
    requires a_bound { a.0 < count_of (model_of model.old) }
    requires f_lt_file_limit { f.0 < file_limit }
    ensures log_after { outcome_is result (state_in model.new log.new) ≡ extend_pair f.0 a.0 (state_in model.old log.old) }
    ensures keeps_state { KeepsState model.old log.old model.new log.new }
{
    let set = set_of(model, a);
    if set.is_empty() {
        return Ok(());
    }
    extend(model, log, a, f)
}

// Identifiable, or with a DEFINITION-REF child.
fn is_keyed(tables: &Tables, a: Element) -> bool
    requires { a.0 < element_count tables.now }
    ensures { result ≡ keyed (fixed_of tables.now) (model_in tables.now) a.0 }
{
    is_identifiable(tables, a) || definition_child(tables, a).is_some()
}

// A's first place in the list of p, 0 if none, and 1.
fn place_behind(model: &[u64], p: Element, a: Element) -> usize
    requires good_model { GoodModel model.now }
    requires p_bound { p.0 < count_of (model_of model.now) }
    ensures { result ≡ place_behind (model_of model.now) p.0 a.0 }
{
    let found = place_of(model, p, a);
    match found {
        Some(i) => i + 1,
        None => 1,
    }
}

// B behind A in the list of p; where the range is refused, the old conflict of e.
fn import_instead(
    schema: &[u64],
    elements: &[u64],
    model: &mut [u64],
    log: &mut [u64],
    f: FileNumber,
    v: u64,
    p: Element,
    a: Element,
    b: Element,
    e: Element,
) -> Result<(), Halt>
    requires good_schema { GoodSchema schema.now }
    requires good_elements { GoodElements elements.now }
    requires each { Each (λ (t : ℕ). t < length (schema_of schema.now).types) (elements_of elements.now).types }
    requires state_over { StateOver elements.now model.old log.old }
    requires f_lt_file_limit { f.0 < file_limit }
    requires v_lt_version_limit { v < version_limit }
    requires p_in_bounds { p.0 < length (elements_of elements.now).names }
    requires b_in_bounds { b.0 < length (elements_of elements.now).names }
    ensures by_index { (deck : List ℕ) → outcome_is result (state_in model.new log.new) ≡ import_instead (fixed_in deck schema.now elements.now) f.0 v p.0 (record { a = a.0; b = b.0 }) e.0 (state_in model.old log.old) }
    ensures keeps_state { KeepsState model.old log.old model.new log.new }
{
    let n = element_name(elements, b);
    let Ok(places) = calc_element_insert_range(schema, elements, model, p, n, v) else {
        return Err(Halt::Conflict(e));
    };
    let wanted = place_behind(model, p, a);
    let at = clamp(wanted, places.first, places.last);
    import_at(model, log, f, p, b, at)
}

// Back to the pair's mark; A gets the files, and B is imported.
fn fall_back(
    schema: &[u64],
    elements: &[u64],
    model: &mut [u64],
    log: &mut [u64],
    f: FileNumber,
    v: u64,
    p: Element,
    a: Element,
    b: Element,
    files: FileSet,
    mark: usize,
    e: Element,
) -> Result<(), Halt>
    requires good_schema { GoodSchema schema.now }
    requires good_elements { GoodElements elements.now }
    requires each { Each (λ (t : ℕ). t < length (schema_of schema.now).types) (elements_of elements.now).types }
    requires state_over { StateOver elements.now model.old log.old }
    requires f_lt_file_limit { f.0 < file_limit }
    requires v_lt_version_limit { v < version_limit }
    requires p_in_bounds { p.0 < length (elements_of elements.now).names }
    requires a_in_bounds { a.0 < length (elements_of elements.now).names }
    requires b_in_bounds { b.0 < length (elements_of elements.now).names }
    ensures by_index { (deck : List ℕ) → outcome_is result (state_in model.new log.new) ≡ fall_back (fixed_in deck schema.now elements.now) f.0 v p.0 (record { a = a.0; b = b.0 }) (set_is files) mark e.0 (state_in model.old log.old) }
    ensures keeps_state { KeepsState model.old log.old model.new log.new }
{
    rollback_merge(model, log, mark, false);
    restrict(model, log, a, files)?;
    import_instead(schema, elements, model, log, f, v, p, a, b, e)
}

// A conflict from below: refusal 6 where A has a key, else the fallback where p is splittable, else the conflict.
fn settle_conflict(
    deck: &[u8],
    schema: &[u64],
    elements: &[u64],
    model: &mut [u64],
    log: &mut [u64],
    f: FileNumber,
    v: u64,
    p: Element,
    a: Element,
    b: Element,
    files: FileSet,
    mark: usize,
    e: Element,
) -> Result<(), Halt>
    requires good_fixed { GoodFixed deck.now schema.now elements.now }
    requires state_over { StateOver elements.now model.old log.old }
    requires f_lt_file_limit { f.0 < file_limit }
    requires v_lt_version_limit { v < version_limit }
    requires p_in_bounds { p.0 < length (elements_of elements.now).names }
    requires a_in_bounds { a.0 < length (elements_of elements.now).names }
    requires b_in_bounds { b.0 < length (elements_of elements.now).names }
    ensures log_after { outcome_is result (state_in model.new log.new) ≡ settle_conflict (fixed_in deck.now schema.now elements.now) f.0 v p.0 (record { a = a.0; b = b.0 }) (set_is files) mark e.0 (state_in model.old log.old) }
    ensures keeps_state { KeepsState model.old log.old model.new log.new }
{
    let tables = Tables {
        deck,
        schema,
        elements,
        model,
    };
    if is_keyed(&tables, a) {
        return Err(Refusal::Unmergeable(e).into());
    }
    let t = element_type(elements, p);
    if !splittable_in(schema, t, v) {
        return Err(Halt::Conflict(e));
    }
    fall_back(schema, elements, model, log, f, v, p, a, b, files, mark, e)
}

// What becomes of the pair a and b of p's lists, after its level; refusals pass up.
pub fn settle(
    deck: &[u8],
    schema: &[u64],
    elements: &[u64],
    model: &mut [u64],
    log: &mut [u64],
    f: FileNumber,
    v: u64,
    p: Element,
    a: Element,
    b: Element,
    files: FileSet,
    mark: usize,
    below: Result<(), Halt>,
) -> Result<(), Halt>
    requires good_fixed { GoodFixed deck.now schema.now elements.now }
    requires state_over { StateOver elements.now model.old log.old }
    requires f_lt_file_limit { f.0 < file_limit }
    requires v_lt_version_limit { v < version_limit }
    requires p_in_bounds { p.0 < length (elements_of elements.now).names }
    requires a_in_bounds { a.0 < length (elements_of elements.now).names }
    requires b_in_bounds { b.0 < length (elements_of elements.now).names }
    ensures log_after { outcome_is result (state_in model.new log.new) ≡ settle (fixed_in deck.now schema.now elements.now) f.0 v p.0 (record { a = a.0; b = b.0 }) (set_is files) mark (outcome_is below (state_in model.old log.old)) }
    ensures keeps_state { KeepsState model.old log.old model.new log.new }
{
    match below {
        Ok(()) => extend_pair(model, log, f, a),
        Err(Halt::Conflict(e)) => settle_conflict(
            deck, schema, elements, model, log, f, v, p, a, b, files, mark, e,
        ),
        Err(Halt::Refused(_)) => below,
    }
}
