// Schema rules: what a G row and an S row must keep to, by the rows above it.
ghost use Rattle.std.specs.Prelude.{◌≡◌, ◌<◌, ◌≤◌, length, get_or};
ghost use Rattle.tables.specs.Lists.{all_of};
ghost use Rattle.tables.specs.Paths.{parts_of};
ghost use Rattle.tables.specs.Records.{Mode};
ghost use Rattle.tables.specs.SchemaTable.{schema_of, GoodSchema, no_sub_element};
ghost use Rattle.deck.specs.Answers.{row_is};
ghost use Rattle.deck.specs.Schema.{proper_beginnings, declared_type, has_group, path_valid, group_rule, sub_element_rule};
ghost use Rattle.schema_calls.specs.Calls.{groups_above, rows_above, has_equal_row, PathsClosed};

use crate::calls::has_group;
use crate::search::{Sought, is_found, repeats};
use deck::lines::RowCells;
use tables::index::Index;
use tables::numbers::TypeNumber;
use tables::path::Path;
use tables::schema::{CHARACTERS, group_count, type_count, type_mode};

pub fn type_declared(schema: &[u64], t: TypeNumber) -> bool
    requires { GoodSchema schema.now }
    ensures { result ≡ declared_type (schema_of schema.now) t.0 }
{
    let count = type_count(schema);
    t.0 < count
}

// Every proper beginning of the path has a group above this place. No loop: there are three at most, and a part of 0 ends the path.
fn beginnings_declared(schema: &[u64], t: TypeNumber, p: Path, above: usize) -> bool
    requires good_schema { GoodSchema schema.now }
    requires above_in_bounds { above ≤ length (schema_of schema.now).groups }
    ensures { result ≡ all_of (has_group (groups_above (schema_of schema.now) above) t.0) (proper_beginnings (parts_of p)) }
{
    let a = p.0;
    let b = p.1;
    let c = p.2;
    if a == 0 {
        return true;
    }
    if b == 0 {
        return true;
    }
    if !has_group(schema, t, Path(a, 0, 0, 0), above) {
        return false;
    }
    if c == 0 {
        return true;
    }
    if !has_group(schema, t, Path(a, b, 0, 0), above) {
        return false;
    }
    if p.3 == 0 {
        return true;
    }
    has_group(schema, t, Path(a, b, c, 0), above)
}

// The type is declared and has rows, and every proper beginning of the path has a group above this place.
pub fn path_valid(schema: &[u64], t: TypeNumber, p: Path, above: usize) -> bool
    requires good_schema { GoodSchema schema.now }
    requires above_in_bounds { above ≤ length (schema_of schema.now).groups }
    ensures { result ≡ path_valid (groups_above (schema_of schema.now) above) t.0 (parts_of p) }
{
    if !type_declared(schema, t) {
        return false;
    }
    if type_mode(schema, t) == CHARACTERS {
        return false;
    }
    beginnings_declared(schema, t, p, above)
}

// Whether a group above has the type and the path is for the caller to find: by their bucket, or by the link of a group in the table.
pub fn group_rule(schema: &[u64], above: usize, t: TypeNumber, p: Path, repeated: bool) -> bool
    requires good_schema { GoodSchema schema.now }
    requires above_in_bounds { above ≤ length (schema_of schema.now).groups }
    requires repeated_value { repeated ≡ has_group (groups_above (schema_of schema.now) above) t.0 (parts_of p) }
    ensures { (mode : Mode) → result ≡ group_rule (groups_above (schema_of schema.now) above) (record { type = t.0; path = parts_of p; mode = mode }) }
{
    path_valid(schema, t, p, above) & !repeated
}

// A row above this place is of the type and has the row's name or path. Apart, so that its two walks are not written into the loop of load.
#[inline(never)]
pub fn rows_meet(schema: &[u64], above: usize, c: RowCells) -> bool
    requires good_schema { GoodSchema schema.now }
    requires above_in_bounds { above ≤ length (schema_of schema.now).sub_elements }
    ensures { result ≡ has_equal_row (rows_above (schema_of schema.now) above) (row_is c) }
{
    let t = c.ty;
    let name = c.name;
    let path = c.path;
    is_found(schema, Sought::Name(t, name), above) || is_found(schema, Sought::Path(t, path), above)
}

// The same of row i of the table, by its own links.
pub fn row_repeats(schema: &[u64], i: usize) -> bool
    requires good_schema { GoodSchema schema.now }
    requires i_in_bounds { i < length (schema_of schema.now).sub_elements }
    ensures { result ≡ has_equal_row (rows_above (schema_of schema.now) i) (get_or (schema_of schema.now).sub_elements i no_sub_element) }
{
    repeats(schema, Index::Names, i) || repeats(schema, Index::Paths, i)
}

// No path above begins or is begun by the row's unless both are equal, or the row's is a group's: so the caller looks for equal ones.
pub fn sub_element_rule(schema: &[u64], above: usize, c: RowCells, repeated: bool) -> bool
    requires good_schema { GoodSchema schema.now }
    requires above_in_bounds { above ≤ length (schema_of schema.now).sub_elements }
    requires paths_closed { PathsClosed (rows_above (schema_of schema.now) above) }
    requires nonzero { 0 < length (parts_of c.path) }
    requires repeated_value { repeated ≡ has_equal_row (rows_above (schema_of schema.now) above) (row_is c) }
    ensures { result ≡ sub_element_rule (rows_above (schema_of schema.now) above) (row_is c) }
{
    let groups = group_count(schema);
    if !path_valid(schema, c.ty, c.path, groups) {
        return false;
    }
    if !type_declared(schema, c.child) {
        return false;
    }
    if repeated {
        return false;
    }
    !has_group(schema, c.ty, c.path, groups)
}
