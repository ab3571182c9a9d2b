// The test of the schema table's indexes: each is built anew from its rows, and compared.

ghost use Rattle.std.specs.Prelude.{◌≡◌, ◌+◌, ◌≤◌, ◌<◌, length};
ghost use Rattle.tables.specs.Index.{buckets, empty_index};
ghost use Rattle.tables.specs.Lists.{same_list};
ghost use Rattle.tables.specs.SchemaTable.{schema_of, places_in, key_in, index_of};
ghost use Rattle.table_test.specs.SchemaTest.{path_bucket_at, name_bucket_at, Counted, index_passes};

use tables::index::{INDEX_SIZE, Index, bucket, link, path_bucket};
use tables::path::Path;
use tables::schema::{GROUP_WIDTH, GROUPS_AT, ROW_WIDTH, ROWS_AT};

// No way out at the first cell that differs: so the compiler takes several cells at a time.
fn same_cells(s: &[u64], t: &[u64]) -> bool
    requires { length s.now ≡ length t.now }
    ensures { result ≡ same_list s.now t.now }
{
    let mut same = true;
    for j in 0..s.len() {
        same = same & (s[j] == t[j]);
    }
    same
}

// The bucket by path of the row that begins here.
fn path_bucket_at(t: &[u64], at: usize) -> usize
    requires { at + 5 ≤ length t.now }
    ensures value { result ≡ path_bucket_at t.now at }
    ensures upper_bound { result < buckets }
{
    path_bucket(
        t[at] as usize,
        Path(t[at + 1], t[at + 2], t[at + 3], t[at + 4]),
    )
}

// The bucket by name of the S row that begins here.
fn name_bucket_at(t: &[u64], at: usize) -> usize
    requires { at + 6 ≤ length t.now }
    ensures value { result ≡ name_bucket_at t.now at }
    ensures upper_bound { result < buckets }
{
    bucket(t[at] as usize, t[at + 5] as usize)
}

// The bucket of the group or row at place i.
fn key_in(t: &[u64], x: Index, i: usize) -> usize
    requires counted { Counted t.now }
    requires i_bound { i < places_in (schema_of t.now) x }
    ensures value { result ≡ key_in (schema_of t.now) x i }
    ensures upper_bound { result < buckets }
{
    match x {
        Index::Groups => path_bucket_at(t, GROUPS_AT + i * GROUP_WIDTH),
        Index::Names => name_bucket_at(t, ROWS_AT + i * ROW_WIDTH),
        Index::Paths => path_bucket_at(t, ROWS_AT + i * ROW_WIDTH),
    }
}

// How many are in the index, by the table's counts.
fn places_in(t: &[u64], x: Index) -> usize
    requires { Counted t.now }
    ensures value { result ≡ places_in (schema_of t.now) x }
    ensures upper_bound { result ≤ 512 }
{
    match x {
        Index::Groups => t[1] as usize,
        Index::Names => t[2] as usize,
        Index::Paths => t[2] as usize,
    }
}

// Empty cells become the index.
pub fn fill_index(cells: &mut [u64], t: &[u64], x: Index)
    requires counted { Counted t.now }
    requires cells_value { cells.old ≡ empty_index }
    ensures { cells.new ≡ index_of (schema_of t.now) x }
{
    for i in 0..places_in(t, x) {
        let b = key_in(t, x, i);
        link(cells, 0, i, b);
    }
}

pub fn index_passes(t: &[u64], x: Index) -> bool
    requires { Counted t.now }
    ensures { result ≡ index_passes x t.now }
{
    let mut cells = [0u64; INDEX_SIZE];
    fill_index(&mut cells, t, x);
    let at = x.at();
    let end = at + INDEX_SIZE;
    same_cells(&t[at..end], &cells)
}
