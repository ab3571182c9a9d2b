// The search of a row or a group through an index: the latest of its bucket first.
ghost use Rattle.std.specs.Prelude.{◌≡◌, ◌<◌, ◌≤◌, length, get_or};
ghost use Rattle.tables.specs.Index.{buckets};
ghost use Rattle.tables.specs.Paths.{parts_of};
ghost use Rattle.tables.specs.SchemaTable.{schema_of, GoodSchema, places_in, no_group, no_sub_element};
ghost use Rattle.schema_calls.specs.Calls.{row_matches, name_matches, path_matches, group_matches};
ghost use Rattle.schema_calls.specs.Search.{index_for, bucket_for, matches_at, alike_at, first_below, any_below};

use tables::index::{Index, bucket, latest, latest_above, path_bucket};
use tables::numbers::{Name, TypeNumber};
use tables::path::Path;
use tables::schema::{group_path, group_type, row_mask, row_name, row_path, row_type};

// What is sought in a type. No closure: the contract of `find` names the index and the bucket that go with the test.
#[derive(Clone, Copy)]
pub enum Sought {
    // The row of a name whose mask meets the mask.
    Row(TypeNumber, Name, u64),
    // A row of the name.
    Name(TypeNumber, Name),
    // A row at the path.
    Path(TypeNumber, Path),
    // The group at the path.
    Group(TypeNumber, Path),
}

impl Sought {
    fn index(self) -> Index
        ensures { result ≡ index_for self }
    {
        match self {
            Sought::Row(_, _, _) => Index::Names,
            Sought::Name(_, _) => Index::Names,
            Sought::Path(_, _) => Index::Paths,
            Sought::Group(_, _) => Index::Groups,
        }
    }

    fn bucket(self) -> usize
        ensures value { result ≡ bucket_for self }
        ensures upper_bound { result < buckets }
    {
        match self {
            Sought::Row(t, n, _) => bucket(t.0, n.0 as usize),
            Sought::Name(t, n) => bucket(t.0, n.0 as usize),
            Sought::Path(t, p) => path_bucket(t.0, p),
            Sought::Group(t, p) => path_bucket(t.0, p),
        }
    }

    // The row or group at place i is what is sought.
    #[inline(always)]
    fn matches(self, schema: &[u64], i: usize) -> bool
        requires good_schema { GoodSchema schema.now }
        requires i_bound { i < places_in (schema_of schema.now) (index_for self) }
        ensures { result ≡ matches_at (schema_of schema.now) self i }
    {
        match self {
            Sought::Row(t, n, mask) => row_matches(schema, i, t, n, mask),
            Sought::Name(t, n) => name_matches(schema, i, t, n),
            Sought::Path(t, p) => path_matches(schema, i, t, p),
            Sought::Group(t, p) => group_matches(schema, i, t, p),
        }
    }
}

// Row i is the type's, and has the name.
fn name_matches(schema: &[u64], i: usize, t: TypeNumber, n: Name) -> bool
    requires good_schema { GoodSchema schema.now }
    requires i_in_bounds { i < length (schema_of schema.now).sub_elements }
    ensures { result ≡ name_matches t.0 n.0 (get_or (schema_of schema.now).sub_elements i no_sub_element) }
{
    (row_type(schema, i) == t) & (row_name(schema, i) == n)
}

// Row i is the type's, has the name, and its mask meets the mask.
fn row_matches(schema: &[u64], i: usize, t: TypeNumber, n: Name, mask: u64) -> bool
    requires good_schema { GoodSchema schema.now }
    requires i_in_bounds { i < length (schema_of schema.now).sub_elements }
    ensures { result ≡ row_matches t.0 n.0 mask (get_or (schema_of schema.now).sub_elements i no_sub_element) }
{
    let named = name_matches(schema, i, t, n);
    let m = row_mask(schema, i);
    named & (m & mask != 0)
}

// Row i is the type's, and has the path.
fn path_matches(schema: &[u64], i: usize, t: TypeNumber, p: Path) -> bool
    requires good_schema { GoodSchema schema.now }
    requires i_in_bounds { i < length (schema_of schema.now).sub_elements }
    ensures { result ≡ path_matches t.0 (parts_of p) (get_or (schema_of schema.now).sub_elements i no_sub_element) }
{
    row_type(schema, i) == t && row_path(schema, i).same(p)
}

// Group i is the type's, and has the path.
fn group_matches(schema: &[u64], i: usize, t: TypeNumber, p: Path) -> bool
    requires good_schema { GoodSchema schema.now }
    requires i_in_bounds { i < length (schema_of schema.now).groups }
    ensures { result ≡ group_matches t.0 (parts_of p) (get_or (schema_of schema.now).groups i no_group) }
{
    group_type(schema, i) == t && group_path(schema, i).same(p)
}

// The first in deck order of what is sought, among the places above this one: the last that the bucket's links lead to.
// Inlined, as `matches` and `is_found` are: each caller writes which `Sought` it seeks, so its walk has one test. Where each link chooses the test, load of
// a schema with long walks takes a third longer.
#[inline(always)]
pub fn find(schema: &[u64], sought: Sought, above: usize) -> Option<usize>
    requires good_schema { GoodSchema schema.now }
    requires above_bound { above ≤ places_in (schema_of schema.now) (index_for sought) }
    ensures { result ≡ first_below (matches_at (schema_of schema.now) sought) above }
{
    let x = sought.index();
    let mut found = None;
    let mut next = latest(schema, x, sought.bucket());
    // No `for`: the next place is where a link leads, here and in `repeats`.
    while let Some(i) = next {
        next = latest_above(schema, x, i);
        if i < above && sought.matches(schema, i) {
            found = Some(i);
        }
    }
    found
}

#[inline(always)]
pub fn is_found(schema: &[u64], sought: Sought, above: usize) -> bool
    requires good_schema { GoodSchema schema.now }
    requires above_bound { above ≤ places_in (schema_of schema.now) (index_for sought) }
    ensures { result ≡ any_below (matches_at (schema_of schema.now) sought) above }
{
    find(schema, sought, above).is_some()
}

// Places i and k have the same type and, by the index, the same name or path.
fn alike(schema: &[u64], x: Index, i: usize, k: usize) -> bool
    requires good_schema { GoodSchema schema.now }
    requires i_bound { i < places_in (schema_of schema.now) x }
    requires k_bound { k < places_in (schema_of schema.now) x }
    ensures { result ≡ alike_at (schema_of schema.now) x i k }
{
    match x {
        Index::Groups => group_matches(schema, k, group_type(schema, i), group_path(schema, i)),
        Index::Names => name_matches(schema, k, row_type(schema, i), row_name(schema, i)),
        Index::Paths => path_matches(schema, k, row_type(schema, i), row_path(schema, i)),
    }
}

// What stands at place i stands above it too: its own link leads to all that can be alike.
pub fn repeats(schema: &[u64], x: Index, i: usize) -> bool
    requires good_schema { GoodSchema schema.now }
    requires i_bound { i < places_in (schema_of schema.now) x }
    ensures { result ≡ any_below (alike_at (schema_of schema.now) x i) i }
{
    let mut next = latest_above(schema, x, i);
    while let Some(k) = next {
        if alike(schema, x, i, k) {
            return true;
        }
        next = latest_above(schema, x, k);
    }
    false
}
