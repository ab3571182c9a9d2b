// The test of a schema table.

ghost use Rattle.std.specs.Prelude.{◌≡◌, ◌≤◌, ◌*◌, length};
ghost use Rattle.tables.specs.SchemaTable.{type_width, group_width, row_width, file_width};
ghost use Rattle.table_test.specs.RowTests.{every, path_passes, type_tests, group_tests, sub_element_tests, file_tests};
ghost use Rattle.table_test.specs.AreaTest.{rows_in};
ghost use Rattle.table_test.specs.SchemaTest.{files_ascend, index_tests, Counted, is_schema_table};

use crate::area_test::Area;
use crate::index_test::index_passes;
use tables::index::Index;
use tables::limits::{FILE_LIMIT, MASK_LIMIT, NAME_LIMIT, PART_LIMIT, TYPE_LIMIT, VERSION_LIMIT};
use tables::schema;

// The largest part of a path, as its cell has it.
const PART_CELL: u64 = PART_LIMIT + 1;

const TYPES: u64 = TYPE_LIMIT as u64;

fn path_passes(a: u64, b: u64, c: u64, d: u64) -> bool
    ensures { result ≡ path_passes a b c d }
{
    (0 < a)
        & (a <= PART_CELL)
        & (b <= PART_CELL)
        & (c <= PART_CELL)
        & (d <= PART_CELL)
        & ((b != 0) | (c == 0))
        & ((c != 0) | (d == 0))
}

pub fn type_passes(row: &[u64]) -> bool
    requires { length row.now ≡ type_width }
    ensures { result ≡ every (type_tests row.now) }
{
    (row[0] <= schema::CHARACTERS) & (row[1] <= 1) & (row[2] < MASK_LIMIT)
}

pub fn group_passes(row: &[u64]) -> bool
    requires { length row.now ≡ group_width }
    ensures { result ≡ every (group_tests row.now) }
{
    (row[0] < TYPES)
        & path_passes(row[1], row[2], row[3], row[4])
        & (row[4] == 0)
        & (row[5] <= schema::MIXED)
}

pub fn sub_element_passes(row: &[u64]) -> bool
    requires { length row.now ≡ row_width }
    ensures { result ≡ every (sub_element_tests row.now) }
{
    (row[0] < TYPES)
        & path_passes(row[1], row[2], row[3], row[4])
        & (row[5] <= NAME_LIMIT)
        & (row[6] < TYPES)
        & (row[7] <= 2)
        & (0 < row[8])
        & (row[8] < MASK_LIMIT)
}

pub fn file_passes(row: &[u64]) -> bool
    requires { length row.now ≡ file_width }
    ensures { result ≡ every (file_tests row.now) }
{
    (row[0] < FILE_LIMIT) & (row[1] < VERSION_LIMIT)
}

// Each file's number is more than the one before. By places: a pair of chunks would need a row beside it.
fn files_ascend(area: &[u64], count: usize) -> bool
    requires { count * file_width ≤ length area.now }
    ensures { result ≡ files_ascend (rows_in file_width count area.now) }
{
    for i in 1..count {
        let a = (i - 1) * schema::FILE_WIDTH;
        let b = i * schema::FILE_WIDTH;
        if area[b] <= area[a] {
            return false;
        }
    }
    true
}

// Each index is that of its rows.
fn indexes_pass(t: &[u64]) -> bool
    requires { Counted t.now }
    ensures { result ≡ every (index_tests t.now) }
{
    index_passes(t, Index::Groups) & index_passes(t, Index::Names) & index_passes(t, Index::Paths)
}

pub fn is_schema_table(t: &[u64]) -> bool
    ensures { result ≡ is_schema_table t.now }
{
    if t.len() != schema::SCHEMA_SIZE {
        return false;
    }
    let files = t[3];
    if !Area::Files.passes(&t[schema::FILES_AT..schema::GROUP_INDEX_AT], files) {
        return false;
    }
    if !Area::Groups.passes(&t[schema::GROUPS_AT..schema::ROWS_AT], t[1]) {
        return false;
    }
    if !Area::SubElements.passes(&t[schema::ROWS_AT..schema::FILES_AT], t[2]) {
        return false;
    }
    Area::Types.passes(&t[schema::TYPES_AT..schema::GROUPS_AT], t[0])
        & files_ascend(&t[schema::FILES_AT..schema::GROUP_INDEX_AT], files as usize)
        & indexes_pass(t)
}
