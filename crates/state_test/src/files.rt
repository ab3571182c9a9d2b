// Sets of declared files, and trees of files of their own.
ghost use Rattle.std.specs.Prelude.{List, ◌≡◌, ℕ, ◌<◌};
ghost use Rattle.tables.specs.Cells.{Each};
ghost use Rattle.tables.specs.Limits.{file_limit};
ghost use Rattle.tables.specs.Lists.{all_of, keep};
ghost use Rattle.tables.specs.Records.{File, Schema, Tree};
ghost use Rattle.tables.specs.ElementsTable.{elements_of, GoodElements};
ghost use Rattle.tables.specs.LogTable.{log_of, GoodLog, entry_is};
ghost use Rattle.tables.specs.ModelTable.{count_of, model_of, GoodModel};
ghost use Rattle.tables.specs.SchemaTable.{schema_of, GoodSchema};
ghost use Rattle.tables.specs.SetCells.{set_is};
ghost use Rattle.deck.specs.Schema.{declared_files};
ghost use Rattle.state_test.specs.StateTest.{root_set_stored, set_declared, entry_declared, tree_declared, waits, tree_files_distinct, files_declared, fixed_in, state_in};

use schema_calls::files::declared_files;
use tables::elements::{tree_count, tree_file};
use tables::file_set::FileSet;
use tables::log::{Entry, entry_at, log_length};
use tables::model::{count, set_of};
use tables::numbers::{Element, ROOT};

// The model root's set is not 0.
fn root_set_stored(model: &[u64]) -> bool
    requires { GoodModel model.now }
    ensures { result ≡ root_set_stored (model_of model.now) }
{
    count(model) != 0 && !set_of(model, ROOT).is_empty()
}

// Each set of the model is a part of d, the declared files.
fn sets_declared(model: &[u64], d: FileSet) -> bool
    requires { GoodModel model.now }
    ensures { (sc : Schema) → set_is d ≡ declared_files sc → result ≡ all_of (set_declared sc) (model_of model.now).sets }
{
    // No way out at the first set that fails, as in the scans of table_test: so the compiler can take several at a time.
    let mut all = true;
    for e in 0..count(model) {
        all = all & set_of(model, Element(e)).part_of(d);
    }
    all
}

// The entry's old set, if it has one, is a part of d.
fn entry_declared(d: FileSet, a: Entry) -> bool
    ensures { (sc : Schema) → set_is d ≡ declared_files sc → result ≡ entry_declared sc (entry_is a) }
{
    match a {
        Entry::Import(_, _, _, s) | Entry::Restriction(_, s) => s.part_of(d),
        Entry::Extension(_, _) => true,
    }
}

// The newest entry first, as the log has them.
fn log_declared(log: &[u64], d: FileSet) -> bool
    requires { GoodLog log.now }
    ensures { (sc : Schema) → set_is d ≡ declared_files sc → result ≡ all_of (entry_declared sc) (log_of log.now) }
{
    for i in (0..log_length(log)).rev() {
        if !entry_declared(d, entry_at(log, i)) {
            return false;
        }
    }
    true
}

// Each tree's file is in d.
fn trees_declared(elements: &[u64], d: FileSet) -> bool
    requires { GoodElements elements.now }
    ensures { (sc : Schema) → set_is d ≡ declared_files sc → result ≡ all_of (tree_declared sc) (elements_of elements.now).trees }
{
    for i in 0..tree_count(elements) {
        if !d.holds(tree_file(elements, i)) {
            return false;
        }
    }
    true
}

// No waiting tree's file is among those of the waiting trees before it.
fn tree_files_distinct(elements: &[u64], model: &[u64]) -> bool
    requires good_elements { GoodElements elements.now }
    requires each { Each (λ (t : Tree). t.file < file_limit) (elements_of elements.now).trees }
    requires good_model { GoodModel model.now }
    requires nonzero { 0 < count_of (model_of model.now) }
    ensures { result ≡ tree_files_distinct (keep (waits (model_of model.now)) (elements_of elements.now).trees) }
{
    let loaded = set_of(model, ROOT);
    let mut seen = FileSet::none();
    for i in 0..tree_count(elements) {
        let f = tree_file(elements, i);
        if loaded.holds(f) {
            continue;
        }
        if seen.holds(f) {
            return false;
        }
        seen = seen.with(f);
    }
    true
}

#[tactic(auto, using(crate::proofs::Laws::Files::root_set_there), unfolding(crate::specs::StateTest::files_declared))]
pub fn files_declared(schema: &[u64], elements: &[u64], model: &[u64], log: &[u64]) -> bool
    requires good_schema { GoodSchema schema.now }
    requires each { Each (λ (d : File). d.file < file_limit) (schema_of schema.now).files }
    requires good_elements { GoodElements elements.now }
    requires each_2 { Each (λ (t : Tree). t.file < file_limit) (elements_of elements.now).trees }
    requires good_model { GoodModel model.now }
    requires good_log { GoodLog log.now }
    ensures { (deck : List ℕ) → result ≡ files_declared (fixed_in deck schema.now elements.now) (state_in model.now log.now) }
{
    let d = declared_files(schema);
    root_set_stored(model)
        && sets_declared(model, d)
        && log_declared(log, d)
        && trees_declared(elements, d)
        && tree_files_distinct(elements, model)
}
