// Schema calls: the rows, groups and modes of a type.
ghost use Rattle.std.specs.Prelude.{◌≡◌, ◌<◌, ◌≤◌, length};
ghost use Rattle.tables.specs.Limits.{version_limit};
ghost use Rattle.tables.specs.Paths.{parts_of};
ghost use Rattle.tables.specs.SchemaTable.{schema_of, GoodSchema, mode_number, no_group, no_sub_element};
ghost use Rattle.deck.specs.Schema.{find_sub_element, row_of_name, group_at, has_group, group_mode, find_common_group, splittable_in};
ghost use Rattle.schema_calls.specs.Calls.{Finds, groups_above};

use crate::search::{Sought, find, is_found};
use deck::lines::ALL_VERSIONS;
use tables::numbers::{Name, TypeNumber};
use tables::path::Path;
use tables::schema::{group_count, group_mode, row_count, type_mode, type_split};

pub fn find_sub_element(schema: &[u64], t: TypeNumber, n: Name, mask: u64) -> Option<usize>
    requires { GoodSchema schema.now }
    ensures { Finds no_sub_element (schema_of schema.now).sub_elements result (find_sub_element (schema_of schema.now) t.0 n.0 mask) }
{
    let count = row_count(schema);
    find(schema, Sought::Row(t, n, mask), count)
}

// The row of the name in the type, whatever its mask.
pub fn row_of_name(schema: &[u64], t: TypeNumber, n: Name) -> Option<usize>
    requires { GoodSchema schema.now }
    ensures { Finds no_sub_element (schema_of schema.now).sub_elements result (row_of_name (schema_of schema.now) t.0 n.0) }
{
    find_sub_element(schema, t, n, ALL_VERSIONS)
}

// The type's group at the path, among the groups above this place.
pub fn find_group(schema: &[u64], t: TypeNumber, p: Path, above: usize) -> Option<usize>
    requires good_schema { GoodSchema schema.now }
    requires above_in_bounds { above ≤ length (schema_of schema.now).groups }
    ensures { Finds no_group (schema_of schema.now).groups result (group_at (groups_above (schema_of schema.now) above) t.0 (parts_of p)) }
{
    find(schema, Sought::Group(t, p), above)
}

pub fn has_group(schema: &[u64], t: TypeNumber, p: Path, above: usize) -> bool
    requires good_schema { GoodSchema schema.now }
    requires above_in_bounds { above ≤ length (schema_of schema.now).groups }
    ensures { result ≡ has_group (groups_above (schema_of schema.now) above) t.0 (parts_of p) }
{
    is_found(schema, Sought::Group(t, p), above)
}

// The mode of the group at the path; the type's where there is none, or the path is empty.
pub fn mode_of_group(schema: &[u64], t: TypeNumber, p: Path) -> u64
    requires good_schema { GoodSchema schema.now }
    requires t_in_bounds { t.0 < length (schema_of schema.now).types }
    ensures { result ≡ mode_number (group_mode (schema_of schema.now) t.0 (parts_of p)) }
{
    if p.0 == 0 {
        return type_mode(schema, t);
    }
    let count = group_count(schema);
    match find_group(schema, t, p, count) {
        Some(i) => group_mode(schema, i),
        None => type_mode(schema, t),
    }
}

pub fn find_common_group(schema: &[u64], t: TypeNumber, p: Path, q: Path) -> u64
    requires good_schema { GoodSchema schema.now }
    requires t_in_bounds { t.0 < length (schema_of schema.now).types }
    ensures { result ≡ mode_number (find_common_group (schema_of schema.now) t.0 (parts_of p) (parts_of q)) }
{
    let both = p.shared(q);
    mode_of_group(schema, t, both)
}

pub fn splittable_in(schema: &[u64], t: TypeNumber, v: u64) -> bool
    requires good_schema { GoodSchema schema.now }
    requires t_in_bounds { t.0 < length (schema_of schema.now).types }
    requires v_lt_version_limit { v < version_limit }
    ensures { result ≡ splittable_in (schema_of schema.now) t.0 v }
{
    let split = type_split(schema, t);
    (split >> v) % 2 == 1
}
