// The waiting tree of a file, and its merge into the model.
ghost use Rattle.std.specs.Prelude.{List, ◌≡◌, ℕ, ◌<◌, eqb, length};
ghost use Rattle.tables.specs.Cells.{Each};
ghost use Rattle.tables.specs.ElementsTable.{elements_of, GoodElements};
ghost use Rattle.tables.specs.FileSets.{waiting_tree};
ghost use Rattle.tables.specs.Limits.{file_limit};
ghost use Rattle.tables.specs.Lists.{first_of};
ghost use Rattle.tables.specs.ModelTable.{count_of, model_of, GoodModel};
ghost use Rattle.tables.specs.Records.{Tree};
ghost use Rattle.table_test.specs.ElementsTest.{TreeIn};
ghost use Rattle.table_test.specs.Fits.{GoodFixed, StateOver, KeepsState};
ghost use Rattle.state_test.specs.StateTest.{fixed_in, state_in};
ghost use Rattle.merge_rules.specs.Calls.{merge_tree};
ghost use Rattle.merge_log.specs.Answers.{outcome_is};
ghost use Rattle.merge.specs.Calls.{FindsTree};

use level::lent::Fixed;
use level::level::{Delivery, merge_apart};
use merge_log::log::extend;
use merge_log::refusals::Halt;
use schema_calls::files::{tree_place, version_of};
use tables::elements::tree_root;
use tables::limits::DEPTH_LIMIT;
use tables::model::set_of;
use tables::numbers::{Element, FileNumber};

const ROOT: Element = Element(0);

const LEVELS: usize = DEPTH_LIMIT as usize + 1;

// The root of the first tree of the file.
fn find_tree(elements: &[u64], f: FileNumber) -> Option<Element>
    requires good_elements { GoodElements elements.now }
    requires each { Each (TreeIn (length (elements_of elements.now).names)) (elements_of elements.now).trees }
    ensures { FindsTree (length (elements_of elements.now).names) f.0 result (first_of (λ (t : Tree). eqb t.file f.0) (elements_of elements.now).trees) }
{
    let i = tree_place(elements, f)?;
    Some(tree_root(elements, i))
}

// The root of the file's tree, which waits while the file is outside the root's set.
pub fn waiting_tree(elements: &[u64], model: &[u64], f: FileNumber) -> Option<Element>
    requires good_elements { GoodElements elements.now }
    requires each { Each (TreeIn (length (elements_of elements.now).names)) (elements_of elements.now).trees }
    requires good_model { GoodModel model.now }
    requires nonzero { 0 < count_of (model_of model.now) }
    ensures { (deck schema : List ℕ) → FindsTree (length (elements_of elements.now).names) f.0 result (waiting_tree (fixed_in deck schema elements.now) (model_of model.now) f.0) }
{
    let loaded = set_of(model, ROOT);
    if loaded.holds(f) {
        return None;
    }
    find_tree(elements, f)
}

// The tree of root b is merged into the model's root, which then gains the file.
pub fn merge_tree(
    deck: &[u8],
    schema: &[u64],
    elements: &[u64],
    model: &mut [u64],
    log: &mut [u64],
    f: FileNumber,
    b: Element,
) -> Result<(), Halt>
    requires good_fixed { GoodFixed deck.now schema.now elements.now }
    requires state_over { StateOver elements.now model.old log.old }
    requires f_lt_file_limit { f.0 < file_limit }
    requires names_nonzero { 0 < length (elements_of elements.now).names }
    requires b_in_bounds { b.0 < length (elements_of elements.now).names }
    ensures log_after { outcome_is result (state_in model.new log.new) ≡ merge_tree (fixed_in deck.now schema.now elements.now) (record { file = f.0; root = b.0 }) (state_in model.old log.old) }
    ensures keeps_state { KeepsState model.old log.old model.new log.new }
{
    let version = version_of(schema, f);
    let files = set_of(model, ROOT);
    let fixed = Fixed {
        deck,
        schema,
        elements,
    };
    let d = Delivery {
        file: f,
        version,
        files,
    };
    merge_apart(&fixed, model, log, d, ROOT, b, LEVELS)?;
    extend(model, log, ROOT, f)
}
