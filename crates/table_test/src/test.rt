// The test of the four tables together.

ghost use Rattle.std.specs.Prelude.{◌≡◌, length};
ghost use Rattle.table_test.specs.TablesTest.{tables_pass};

use crate::elements_test::is_elements_table;
use crate::log_test::is_log_table;
use crate::model_test::is_model_table;
use crate::schema_test::is_schema_table;

pub fn tables_pass(
    deck: &[u8],
    schema: &[u64],
    elements: &[u64],
    model: &[u64],
    log: &[u64],
) -> bool
    ensures { result ≡ tables_pass (length deck.now) schema.now elements.now model.now log.now }
{
    if !is_schema_table(schema) {
        return false;
    }
    let size = deck.len() as u64;
    if !is_elements_table(elements, schema[0], size) {
        return false;
    }
    if !is_model_table(model, elements[1]) {
        return false;
    }
    if model[0] != elements[0] {
        return false;
    }
    is_log_table(log, elements[0])
}
