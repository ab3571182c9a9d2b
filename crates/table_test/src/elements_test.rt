// The test of an elements table, given the number of types and the deck's length.

ghost use Rattle.std.specs.Prelude.{◌≡◌, length};
ghost use Rattle.tables.specs.ElementsTable.{element_width, text_width, tree_width};
ghost use Rattle.table_test.specs.RowTests.{every, element_tests, text_tests, tree_tests};
ghost use Rattle.table_test.specs.ElementsTest.{is_elements_table};

use crate::area_test::Area;
use tables::elements;
use tables::limits::{DEPTH_LIMIT, ENUM_LIMIT, FILE_LIMIT, NAME_LIMIT, STRING_LIMIT};

pub fn element_passes(row: &[u64], types: u64) -> bool
    requires { length row.now ≡ element_width }
    ensures { result ≡ every (element_tests types row.now) }
{
    (row[0] <= NAME_LIMIT) & (row[1] < types) & (row[2] <= DEPTH_LIMIT)
}

// Kinds are numbers here and in the other tests of rows: cells are what is tested, whatever they hold.
pub fn text_passes(row: &[u64], size: u64) -> bool
    requires { length row.now ≡ text_width }
    ensures { result ≡ every (text_tests size row.now) }
{
    let kind = row[0];
    let value = row[1];
    (kind <= 3)
        & ((kind != 0) | (value <= ENUM_LIMIT))
        & ((kind != 1) | (value / STRING_LIMIT + value % STRING_LIMIT <= size))
}

pub fn tree_passes(row: &[u64], n: u64) -> bool
    requires { length row.now ≡ tree_width }
    ensures { result ≡ every (tree_tests n row.now) }
{
    (row[0] < FILE_LIMIT) & (row[1] < n)
}

pub fn is_elements_table(t: &[u64], types: u64, size: u64) -> bool
    ensures { result ≡ is_elements_table types size t.now }
{
    if t.len() != elements::ELEMENTS_SIZE {
        return false;
    }
    let n = t[0];
    Area::Elements(types).passes(&t[elements::ELEMENTS_AT..elements::TEXTS_AT], n)
        & Area::Texts(size).passes(&t[elements::TEXTS_AT..elements::TREES_AT], t[1])
        & Area::Trees(n).passes(&t[elements::TREES_AT..elements::ELEMENTS_SIZE], t[2])
}
