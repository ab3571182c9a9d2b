// Log: restrictions and extensions, their undoing, and marks.
ghost use Rattle.std.specs.Prelude.{true, ◌≡◌, ◌<◌, ◌≤◌, eqb, length, OnOk, IfErr};
ghost use Rattle.tables.specs.Cells.{Each};
ghost use Rattle.tables.specs.Limits.{file_limit, log_limit};
ghost use Rattle.tables.specs.LogTable.{log_of, GoodLog, entry_is};
ghost use Rattle.tables.specs.ModelTable.{item_is, count_of, model_of, GoodModel, HoldsModel};
ghost use Rattle.tables.specs.Records.{list_of};
ghost use Rattle.tables.specs.SetCells.{set_is};
ghost use Rattle.table_test.specs.LogTest.{EntryIn};
ghost use Rattle.table_test.specs.ModelTest.{once_in};
ghost use Rattle.state_test.specs.StateTest.{state_in};
ghost use Rattle.merge_rules.specs.Log.{restrict, extend, take_out, undo, rollback_merge, is_root_extension, is_mark};
ghost use Rattle.merge_log.specs.Answers.{outcome_is};
ghost use Rattle.merge_log.specs.declared.refusals.Refusal.TheVariants.{LogFull};
ghost use Rattle.merge_log.specs.Places.{FirstPlace, is_child};
ghost use Rattle.merge_log.specs.Runs.{without_run, RunIn, StandsBefore, OnceIf, Leads};
ghost use Rattle.table_test.specs.Fits.{KeepsModel, KeepsState};

use crate::refusals::{Halt, Refusal};
use tables::file_set::FileSet;
use tables::limits::LOG_LIMIT;
use tables::log::{Entry, entry_at, log_length, pop_entry, push_entry};
use tables::model::{Item, item_at, list_length, remove_items, set_of, set_parent, set_set};
use tables::numbers::{Element, FileNumber};

// Refusal 9 where the log takes no entry more.
pub fn has_room(log: &[u64]) -> Result<(), Refusal>
    requires { GoodLog log.now }
    ensures room { OnOk result (length (log_of log.now) < log_limit) }
    ensures full { IfErr result (λ r. (r ≡ LogFull) × (log_limit ≤ length (log_of log.now))) }
{
    if LOG_LIMIT <= log_length(log) {
        return Err(Refusal::LogFull);
    }
    Ok(())
}

// The set becomes `files`, and the log keeps the old one.
pub fn restrict(model: &mut [u64], log: &mut [u64], e: Element, files: FileSet) -> Result<(), Halt>
    requires good_model { GoodModel model.old }
    requires good_log { GoodLog log.old }
    requires e_bound { e.0 < count_of (model_of model.old) }
    ensures log_after { outcome_is result (state_in model.new log.new) ≡ restrict e.0 (set_is files) (state_in model.old log.old) }
    ensures keeps_state { KeepsState model.old log.old model.new log.new }
{
    has_room(log)?;
    let old = set_of(model, e);
    push_entry(log, Entry::Restriction(e, old));
    set_set(model, e, files);
    Ok(())
}

// The set gains the file where it lacks it, and the log an entry.
pub fn extend(model: &mut [u64], log: &mut [u64], e: Element, f: FileNumber) -> Result<(), Halt>
    requires good_model { GoodModel model.old }
    requires good_log { GoodLog log.old }
    requires e_bound { e.0 < count_of (model_of model.old) }
    requires f_lt_file_limit { f.0 < file_limit }
    ensures log_after { outcome_is result (state_in model.new log.new) ≡ extend e.0 f.0 (state_in model.old log.old) }
    ensures keeps_state { KeepsState model.old log.old model.new log.new }
{
    let old = set_of(model, e);
    if old.holds(f) {
        return Ok(());
    }
    has_room(log)?;
    push_entry(log, Entry::Extension(e, f));
    set_set(model, e, old.with(f));
    Ok(())
}

fn is_child(a: Item, e: Element) -> bool
    ensures { result ≡ is_child e.0 (item_is a) }
{
    matches!(a, Item::Child(c) if c == e)
}

// The first place of e in the list of p.
pub fn place_of(model: &[u64], p: Element, e: Element) -> Option<usize>
    requires good_model { GoodModel model.now }
    requires p_bound { p.0 < count_of (model_of model.now) }
    ensures { FirstPlace e.0 (list_of (model_of model.now) p.0) result }
{
    let n = list_length(model, p);
    for i in 0..n {
        let a = item_at(model, p, i);
        if is_child(a, e) {
            return Some(i);
        }
    }
    None
}

// The last place of e in the list of p, the first one too where the list has no element twice: only there, so it is a function beside
// `place_of` with a `requires` of its own.
fn last_place_of(model: &[u64], p: Element, e: Element) -> Option<usize>
    requires good_model { GoodModel model.now }
    requires p_bound { p.0 < count_of (model_of model.now) }
    requires p_value { once_in (list_of (model_of model.now) p.0) ≡ true }
    ensures { FirstPlace e.0 (list_of (model_of model.now) p.0) result }
{
    let n = list_length(model, p);
    for last in (0..n).rev() {
        let a = item_at(model, p, last);
        if is_child(a, e) {
            return Some(last);
        }
    }
    None
}

// The first place of e in the list of p: from the back where no list has an element twice, since what was imported last mostly stands there.
fn find_place(model: &[u64], p: Element, e: Element, once: bool) -> Option<usize>
    requires good_model { GoodModel model.now }
    requires p_bound { p.0 < count_of (model_of model.now) }
    requires once_if { OnceIf once (model_of model.now) }
    ensures { FirstPlace e.0 (list_of (model_of model.now) p.0) result }
{
    if once {
        return last_place_of(model, p, e);
    }
    place_of(model, p, e)
}

// Items that are to leave the list of p: k of them, the first at place i. What a merge imported one behind the other leaves at once.
// No run is one with k = 0, and no Option: the model without it is the model, and each law holds of it as of any other.
#[derive(Clone, Copy)]
pub struct Run {
    pub p: Element,
    pub i: usize,
    pub k: usize,
}

// e of the list of p stands right before them.
fn stands_before(model: &[u64], r: Run, p: Element, e: Element) -> bool
    requires good_model { GoodModel model.now }
    requires run_in { RunIn (model_of model.now) r }
    ensures { result ≡ true → StandsBefore (model_of model.now) r p.0 e.0 }
{
    r.p == p && r.i != 0 && is_child(item_at(model, r.p, r.i - 1), e)
}

fn remove_run(model: &mut [u64], r: Run)
    requires good_model { GoodModel model.old }
    requires run_in { RunIn (model_of model.old) r }
    ensures holds_model { HoldsModel model.new (without_run r (model_of model.old)) }
    ensures keeps_model { KeepsModel model.old model.new }
{
    if r.k == 0 {
        return;
    }
    remove_items(model, r.p, r.i, r.k);
}

// The first place of e, if any, is to leave the list of p.
fn take_out(model: &mut [u64], r: Run, e: Element, p: Element, once: bool) -> Run
    requires good_model { GoodModel model.old }
    requires run_in { RunIn (model_of model.old) r }
    requires p_bound { p.0 < count_of (model_of model.old) }
    requires once_if { OnceIf once (model_of model.old) }
    ensures { Leads (take_out e.0 p.0) once r result model.old model.new }
{
    if once {
        if stands_before(model, r, p, e) {
            let i = r.i - 1;
            let k = r.k + 1;
            return Run { p, i, k };
        }
    }
    remove_run(model, r);
    let found = find_place(model, p, e, once);
    let Some(i) = found else {
        return Run { p, i: 0, k: 0 };
    };
    Run { p, i, k: 1 }
}

fn undo_entry(model: &mut [u64], r: Run, a: Entry, once: bool) -> Run
    requires good_model { GoodModel model.old }
    requires run_in { RunIn (model_of model.old) r }
    requires entry_in { EntryIn (count_of (model_of model.old)) (entry_is a) }
    requires once_if { OnceIf once (model_of model.old) }
    ensures { Leads (undo (entry_is a)) once r result model.old model.new }
{
    match a {
        Entry::Import(e, p, parent, set) => {
            let q = take_out(model, r, e, p, once);
            set_parent(model, e, parent);
            set_set(model, e, set);
            q
        }
        Entry::Restriction(e, set) => {
            set_set(model, e, set);
            r
        }
        Entry::Extension(e, f) => {
            let set = set_of(model, e).without(f);
            set_set(model, e, set);
            r
        }
    }
}

// The newest entry is undone first, down to the mark; `once` says that no list has an element twice.
pub fn rollback_merge(model: &mut [u64], log: &mut [u64], mark: usize, once: bool)
    requires good_model { GoodModel model.old }
    requires good_log { GoodLog log.old }
    requires each { Each (EntryIn (count_of (model_of model.old))) (log_of log.old) }
    requires once_if { OnceIf once (model_of model.old) }
    ensures log_after { state_in model.new log.new ≡ rollback_merge mark (state_in model.old log.old) }
    ensures keeps_state { KeepsState model.old log.old model.new log.new }
{
    let mut r = Run {
        p: Element(0),
        i: 0,
        k: 0,
    };
    for n in (mark..log_length(log)).rev() {
        let a = entry_at(log, n);
        pop_entry(log);
        r = undo_entry(model, r, a, once);
    }
    remove_run(model, r);
}

#[tactic(auto, unfolding(merge_rules::specs::Log::is_root_extension))]
fn is_root_extension(a: Entry) -> bool
    ensures { result ≡ is_root_extension (entry_is a) }
{
    matches!(a, Entry::Extension(e, _) if e.0 == 0)
}

// 0, or the entry below it ends a merge.
pub fn is_mark(log: &[u64], mark: u64) -> bool
    requires { GoodLog log.now }
    ensures { result ≡ is_mark mark (log_of log.now) }
{
    if mark == 0 {
        return true;
    }
    let n = log_length(log);
    if (n as u64) < mark {
        return false;
    }
    let i = (mark - 1) as usize;
    let a = entry_at(log, i);
    is_root_extension(a)
}
