// The test of a log table, given the number n of elements.

ghost use Rattle.std.specs.Prelude.{◌≡◌, length};
ghost use Rattle.tables.specs.LogTable.{entry_width};
ghost use Rattle.table_test.specs.RowTests.{every, entry_tests};
ghost use Rattle.table_test.specs.LogTest.{is_log_table};

use crate::area_test::Area;
use crate::scan;
use tables::limits::FILE_LIMIT;
use tables::log;

pub fn entry_passes(row: &[u64], n: u64) -> bool
    requires { length row.now ≡ entry_width }
    ensures { result ≡ every (entry_tests n row.now) }
{
    let kind = row[0];
    (kind <= 2)
        & (row[1] < n)
        & ((kind != 0) | (row[2] < n))
        & ((kind != 1) | (row[2] == 0))
        & ((kind != 2) | (row[2] < FILE_LIMIT))
        & ((kind != 0) | (row[3] <= n))
        & ((kind == 0) | (row[3] == 0))
        & ((kind != 2) | scan::all_zero(&row[log::OLD_SET_AT..]))
}

pub fn is_log_table(t: &[u64], n: u64) -> bool
    ensures { result ≡ is_log_table n t.now }
{
    if t.len() != log::LOG_SIZE {
        return false;
    }
    Area::Entries(n).passes(&t[log::ENTRIES_AT..log::LOG_SIZE], t[0])
}
