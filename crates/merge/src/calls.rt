// The calls on lent tables.
ghost use Rattle.std.specs.Prelude.{true, false, ◌≡◌, ◌<◌, length, OnOk, IfErr};
ghost use Rattle.tables.specs.ElementsTable.{elements_of};
ghost use Rattle.tables.specs.Limits.{file_limit};
ghost use Rattle.tables.specs.LogTable.{GoodLog};
ghost use Rattle.table_test.specs.Fits.{GoodFixed, StateOver};
ghost use Rattle.state_test.specs.StateTest.{fixed_in, state_in, lent_tables_pass};
ghost use Rattle.merge_rules.specs.Calls.{range_answer, merged_from, merge_tree};
ghost use Rattle.merge_rules.specs.TableCalls.{answered, range_call, merge_call, rollback_call};
ghost use Rattle.merge_log.specs.Answers.{outcome_is};
ghost use Rattle.merge.specs.declared.calls.CallError.TheVariants.{BadTables};
ghost use Rattle.merge.specs.Calls.{range_answer_is, merge_result, rollback_result, encoded_merge, concluded};
ghost use Rattle.insert_range.specs.Range.{range_is};

use crate::counts::{Counts, counts_above};
use crate::tree::{merge_tree, waiting_tree};
use insert_range::range::{Bounds, Unplaced, calc_element_insert_range};
use merge_log::log::{is_mark, rollback_merge};
use merge_log::refusals::{Halt, Refusal};
use state_test::state::lent_tables_pass;
use tables::elements::{element_count, element_type};
use tables::limits::VERSION_LIMIT;
use tables::log::{LOG_SIZE, log_length};
use tables::model::MODEL_SIZE;
use tables::numbers::{Element, FileNumber, Name};
use tables::schema::type_mode;

// Why a call is not done: refusal 0, or a refusal of its operation.
#[derive(Clone, Copy, PartialEq, Eq)]
pub enum CallError {
    BadTables,
    Refused(Refusal),
}

impl From<Refusal> for CallError {
    ghost use Rattle.std.specs.Prelude.{◌≡◌};
    ghost use Rattle.merge.specs.declared.calls.CallError.TheVariants.{Refused};

    ghost from_gives = { λ r e. e ≡ Refused r };

    fn from(r: Refusal) -> CallError {
        CallError::Refused(r)
    }
}

// A conflict that a merge comes to is refusal 6 at the element whose list it arose in.
impl From<Halt> for CallError {
    ghost use Rattle.std.specs.Prelude.{◌≡◌};
    ghost use Rattle.merge.specs.declared.calls.CallError.TheVariants.{Refused};
    ghost use Rattle.merge.specs.Calls.{halt_refusal};

    ghost from_gives = { λ h e. e ≡ Refused (halt_refusal h) };

    fn from(h: Halt) -> CallError {
        match h {
            Halt::Conflict(e) => CallError::Refused(Refusal::Unmergeable(e)),
            Halt::Refused(r) => CallError::Refused(r),
        }
    }
}

const CHARACTERS: u64 = 4;

#[tactic(auto, unfolding(merge_rules::specs::Calls::range_answer))]
fn range_answer(e: Element, n: Name, r: Result<Bounds, Unplaced>) -> Result<Bounds, CallError>
    ensures { range_answer_is result ≡ answered (range_answer e.0 n.0 (range_is r)) }
{
    match r {
        Ok(bounds) => Ok(bounds),
        Err(Unplaced::NoRow) => Err(CallError::Refused(Refusal::NotInVersion(e, n))),
        Err(Unplaced::Conflicting) => Err(CallError::Refused(Refusal::NoPlace(e))),
    }
}

// Refusal 0 where the lent tables do not pass.
fn tested(
    deck: &[u8],
    schema: &[u64],
    elements: &[u64],
    model: &[u64],
    log: &[u64],
) -> Result<(), CallError>
    ensures pass { OnOk result (lent_tables_pass deck.now schema.now elements.now model.now log.now ≡ true) }
    ensures fail { IfErr result (λ e. (e ≡ BadTables) × (lent_tables_pass deck.now schema.now elements.now model.now log.now ≡ false)) }
{
    if !lent_tables_pass(deck, schema, elements, model, log) {
        return Err(CallError::BadTables);
    }
    Ok(())
}

// Where an element of this name may stand in the list of this element, in this version: the first and last place.
pub fn range(
    deck: &[u8],
    schema: &[u64],
    elements: &[u64],
    model: &[u64],
    log: &[u64],
    element: u64,
    name: u64,
    version: u64,
) -> Result<Bounds, CallError>
    ensures { range_answer_is result ≡ range_call deck.now schema.now elements.now model.now log.now element name version }
{
    tested(deck, schema, elements, model, log)?;
    if element_count(elements) as u64 <= element || VERSION_LIMIT <= version {
        return Err(Refusal::NoSuchElement.into());
    }
    let e = Element(element as usize);
    let t = element_type(elements, e);
    if type_mode(schema, t) == CHARACTERS {
        return Err(Refusal::CharactersParent(e).into());
    }
    let n = Name(name);
    let r = calc_element_insert_range(schema, elements, model, e, n, version);
    range_answer(e, n, r)
}

// One table's cells in the place of another's. A loop: by `copy_from_slice` the new arrays of a merge are filled with zeros first.
pub fn copy(from: &[u64], to: &mut [u64])
    requires { length from.now ≡ length to.old }
    ensures { to.new ≡ from.now }
{
    for i in 0..to.len() {
        to[i] = from[i];
    }
}

// The counts of an accepted merge; the tables as they stood where it is refused.
fn conclude(
    old_model: &[u64],
    old_log: &[u64],
    model: &mut [u64],
    log: &mut [u64],
    mark: usize,
    r: Result<(), Halt>,
) -> Result<Counts, CallError>
    requires good_log { GoodLog log.old }
    requires old_model_len { length old_model.now ≡ length model.old }
    requires old_log_len { length old_log.now ≡ length log.old }
    ensures { merge_result result model.new log.new ≡ concluded old_model.now old_log.now mark model.old log.old (outcome_is r (state_in model.old log.old)) }
{
    match r {
        Ok(()) => Ok(counts_above(log, mark)),
        Err(halt) => {
            model.copy_from_slice(old_model);
            log.copy_from_slice(old_log);
            Err(halt.into())
        }
    }
}

// The merge of the waiting tree of root b; a refused one leaves the tables as they stood.
fn merge_waiting(
    deck: &[u8],
    schema: &[u64],
    elements: &[u64],
    model: &mut [u64],
    log: &mut [u64],
    f: FileNumber,
    b: Element,
) -> Result<Counts, CallError>
    requires good_fixed { GoodFixed deck.now schema.now elements.now }
    requires state_over { StateOver elements.now model.old log.old }
    requires f_lt_file_limit { f.0 < file_limit }
    requires names_nonzero { 0 < length (elements_of elements.now).names }
    requires b_in_bounds { b.0 < length (elements_of elements.now).names }
    ensures { merge_result result model.new log.new ≡ encoded_merge (merged_from (state_in model.old log.old) (merge_tree (fixed_in deck.now schema.now elements.now) (record { file = f.0; root = b.0 }) (state_in model.old log.old))) }
{
    let mut old_model = [0u64; MODEL_SIZE];
    let mut old_log = [0u64; LOG_SIZE];
    copy(model, &mut old_model);
    copy(log, &mut old_log);
    let mark = log_length(log);
    let r = merge_tree(deck, schema, elements, model, log, f, b);
    conclude(&old_model, &old_log, model, log, mark, r)
}

// The waiting tree of this file is merged into the model; how many entries of each kind the log gained.
pub fn merge(
    deck: &[u8],
    schema: &[u64],
    elements: &[u64],
    model: &mut [u64],
    log: &mut [u64],
    file: u64,
) -> Result<Counts, CallError>
    ensures { merge_result result model.new log.new ≡ merge_call deck.now schema.now elements.now model.old log.old file }
{
    let f = FileNumber(file);
    tested(deck, schema, elements, model, log)?;
    let b = waiting_tree(elements, model, f).ok_or(Refusal::NotWaiting)?;
    merge_waiting(deck, schema, elements, model, log, f, b)
}

// The log goes back to this mark, and the model with it; how many entries were taken off.
pub fn rollback(
    deck: &[u8],
    schema: &[u64],
    elements: &[u64],
    model: &mut [u64],
    log: &mut [u64],
    mark: u64,
) -> Result<usize, CallError>
    ensures { rollback_result result model.new log.new ≡ rollback_call deck.now schema.now elements.now model.old log.old mark }
{
    tested(deck, schema, elements, model, log)?;
    if !is_mark(log, mark) {
        return Err(Refusal::NoMark.into());
    }
    let n = log_length(log);
    let m = mark as usize;
    rollback_merge(model, log, m, true);
    Ok(n - m)
}
