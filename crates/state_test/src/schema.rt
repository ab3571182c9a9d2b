// Each G and S row meets its rule, by the rows above it.
ghost use Rattle.std.specs.Prelude.{true, ◌≡◌, ◌<◌, length, get_or};
ghost use Rattle.tables.specs.Cells.{Each};
ghost use Rattle.tables.specs.SchemaTable.{schema_of, GoodSchema, no_sub_element};
ghost use Rattle.deck.specs.Answers.{row_is};
ghost use Rattle.state_test.specs.StateTest.{groups_valid, rows_valid, schema_valid, types_alone, without_rows, PathFilled};

use deck::lines::RowCells;
use schema_calls::rules::{group_rule, row_repeats, sub_element_rule};
use schema_calls::search::repeats;
use tables::index::Index;
use tables::schema::{
    group_count, group_path, group_type, row_child, row_count, row_mask, row_mult, row_name,
    row_path, row_type,
};

fn groups_valid(schema: &[u64]) -> bool
    requires { GoodSchema schema.now }
    ensures { result ≡ groups_valid (types_alone (schema_of schema.now)) (schema_of schema.now).groups }
{
    for i in 0..group_count(schema) {
        let t = group_type(schema, i);
        let p = group_path(schema, i);
        let repeated = repeats(schema, Index::Groups, i);
        if !group_rule(schema, i, t, p, repeated) {
            return false;
        }
    }
    true
}

// Row i as an S line has it.
fn row_cells(schema: &[u64], i: usize) -> RowCells
    requires good_schema { GoodSchema schema.now }
    requires i_in_bounds { i < length (schema_of schema.now).sub_elements }
    ensures { row_is result ≡ get_or (schema_of schema.now).sub_elements i no_sub_element }
{
    RowCells {
        ty: row_type(schema, i),
        path: row_path(schema, i),
        name: row_name(schema, i),
        child: row_child(schema, i),
        mult: row_mult(schema, i),
        mask: row_mask(schema, i),
    }
}

fn rows_valid(schema: &[u64]) -> bool
    requires good_schema { GoodSchema schema.now }
    requires each { Each PathFilled (schema_of schema.now).sub_elements }
    requires schema_value { groups_valid (types_alone (schema_of schema.now)) (schema_of schema.now).groups ≡ true }
    ensures { result ≡ rows_valid (without_rows (schema_of schema.now)) (schema_of schema.now).sub_elements }
{
    for i in 0..row_count(schema) {
        let repeated = row_repeats(schema, i);
        if !sub_element_rule(schema, i, row_cells(schema, i), repeated) {
            return false;
        }
    }
    true
}

pub fn schema_valid(schema: &[u64]) -> bool
    requires good_schema { GoodSchema schema.now }
    requires each { Each PathFilled (schema_of schema.now).sub_elements }
    ensures { result ≡ schema_valid (schema_of schema.now) }
{
    groups_valid(schema) && rows_valid(schema)
}
