// The indexes of the schema table: for each bucket of keys its latest row, and for each row the latest above it of the same bucket.

ghost use Rattle.std.specs.Prelude.{◌≡◌, ◌+◌, ◌≤◌, ◌<◌, length};
ghost use Rattle.tables.specs.Index.{buckets, bucket, path_bucket, place_number, latest, linked_at, index_size};
ghost use Rattle.tables.specs.Paths.{parts_of};
ghost use Rattle.tables.specs.SchemaTable.{schema_size, schema_of, GoodSchema, index_at, places_in, key_in};

use crate::cells::place_in;
use crate::limits::{PATH_LIMIT, ROW_LIMIT};
use crate::path::Path;
use crate::schema::{GROUP_INDEX_AT, NAME_INDEX_AT, PATH_INDEX_AT};

pub const BUCKETS: usize = 512;

// Heads and links.
pub const INDEX_SIZE: usize = BUCKETS + ROW_LIMIT;

// Groups by path, rows by name, rows by path: three cases that each match names, in place of closures.
#[derive(Clone, Copy)]
pub enum Index {
    Groups,
    Names,
    Paths,
}

impl Index {
    pub fn at(self) -> usize
        ensures value { result ≡ index_at self }
        ensures index_size_bound { result + index_size ≤ schema_size }
    {
        match self {
            Index::Groups => GROUP_INDEX_AT,
            Index::Names => NAME_INDEX_AT,
            Index::Paths => PATH_INDEX_AT,
        }
    }
}

pub fn bucket(a: usize, b: usize) -> usize
    ensures value { result ≡ bucket a b }
    ensures upper_bound { result < buckets }
{
    (a % BUCKETS * 331 + b % BUCKETS) % BUCKETS
}

pub fn path_bucket(t: usize, p: Path) -> usize
    ensures value { result ≡ path_bucket t (parts_of p) }
    ensures upper_bound { result < buckets }
{
    let mut k = t;
    for i in 0..PATH_LIMIT {
        let x = p.part(i) as usize;
        if x == 0 {
            return k % BUCKETS;
        }
        k = bucket(k, x);
    }
    k % BUCKETS
}

// Row n put into the index at this place.
pub fn link(cells: &mut [u64], at: usize, n: usize, b: usize)
    requires index_size_in_bounds { at + index_size ≤ length cells.old }
    requires b_lt_buckets { b < buckets }
    requires n_bound { n < 512 }
    ensures { cells.new ≡ linked_at at cells.old n b }
{
    let head = at + b;
    let link = at + (BUCKETS + n);
    cells[link] = cells[head];
    cells[head] = n as u64 + 1;
}

// The latest row of the bucket.
pub fn latest(schema: &[u64], x: Index, b: usize) -> Option<usize>
    requires good_schema { GoodSchema schema.now }
    requires b_lt_buckets { b < buckets }
    ensures { place_number result ≡ latest (key_in (schema_of schema.now) x) b (places_in (schema_of schema.now) x) }
{
    let at = x.at();
    place_in(schema[at + b])
}

// The latest row above row i of the same bucket.
pub fn latest_above(schema: &[u64], x: Index, i: usize) -> Option<usize>
    requires good_schema { GoodSchema schema.now }
    requires i_bound { i < places_in (schema_of schema.now) x }
    ensures { place_number result ≡ latest (key_in (schema_of schema.now) x) (key_in (schema_of schema.now) x i) i }
{
    let at = x.at();
    place_in(schema[at + (BUCKETS + i)])
}
