// Refusal 0 of every call but load.
ghost use Rattle.std.specs.Prelude.{List, ◌≡◌, ℕ, ◌<◌, length};
ghost use Rattle.tables.specs.Cells.{Each};
ghost use Rattle.tables.specs.Limits.{file_limit};
ghost use Rattle.tables.specs.Records.{File, Tree};
ghost use Rattle.tables.specs.ElementsTable.{elements_of, GoodElements};
ghost use Rattle.tables.specs.LogTable.{GoodLog};
ghost use Rattle.tables.specs.ModelTable.{count_of, model_of, GoodModel};
ghost use Rattle.tables.specs.SchemaTable.{schema_of, GoodSchema};
ghost use Rattle.state_test.specs.StateTest.{PathFilled, Shallow, state_valid, lent_tables_pass, fixed_in, state_in};

use crate::files::files_declared;
use crate::roots::{lists_valid, roots_valid};
use crate::schema::schema_valid;
use table_test::test::tables_pass;

// The state held by tables that pass their own test.
#[tactic(auto, unfolding(crate::specs::StateTest::state_valid))]
fn state_valid(schema: &[u64], elements: &[u64], model: &[u64], log: &[u64]) -> bool
    requires good_schema { GoodSchema schema.now }
    requires each { Each PathFilled (schema_of schema.now).sub_elements }
    requires each_2 { Each (λ (d : File). d.file < file_limit) (schema_of schema.now).files }
    requires good_elements { GoodElements elements.now }
    requires each_3 { Each Shallow (elements_of elements.now).depths }
    requires each_4 { Each (λ (t : Tree). t.file < file_limit) (elements_of elements.now).trees }
    requires good_model { GoodModel model.now }
    requires good_log { GoodLog log.now }
    requires model_value { count_of (model_of model.now) ≡ length (elements_of elements.now).names }
    ensures { (deck : List ℕ) → result ≡ state_valid (fixed_in deck schema.now elements.now) (state_in model.now log.now) }
{
    schema_valid(schema)
        && files_declared(schema, elements, model, log)
        && roots_valid(elements)
        && lists_valid(schema, elements, model)
}

// No refusal 0: the tables pass their own test, and the state that they hold is valid.
pub fn lent_tables_pass(
    deck: &[u8],
    schema: &[u64],
    elements: &[u64],
    model: &[u64],
    log: &[u64],
) -> bool
    ensures { result ≡ lent_tables_pass deck.now schema.now elements.now model.now log.now }
{
    tables_pass(deck, schema, elements, model, log) && state_valid(schema, elements, model, log)
}
