// Cells of the tables.
ghost use Rattle.std.specs.Prelude.{◌≡◌, ◌≤◌, length, take};

use crate::areas::Area;
use printing::buffer::{Written, append_number};
use table_test::index_test::fill_index;
use tables::index::{INDEX_SIZE, Index};
use tables::limits::{GROUP_LIMIT, ROW_LIMIT};
use tables::schema::SCHEMA_SIZE;

// A count, as far as there are cells or bytes.
pub fn cut<T>(n: usize, s: &[T]) -> usize
    ensures { (result ≤ length s.now) × (result ≡ length (take result s.now)) }
{
    n.min(s.len())
}

// A cell; 0 where there is none.
fn get(cells: &[u64], i: usize) -> u64 {
    cells.get(i).copied().unwrap_or(0)
}

fn set(cells: &mut [u64], i: usize, value: u64) {
    if let Some(cell) = cells.get_mut(i) {
        *cell = value;
    }
}

// Where a cell lies in an area.
#[derive(Clone, Copy)]
struct Place {
    row: u64,
    column: u64,
}

fn place_in(a: Area, i: usize) -> Option<Place> {
    if i < a.at || a.end <= i || a.width == 0 {
        return None;
    }
    let k = i - a.at;
    Some(Place {
        row: (k / a.width) as u64,
        column: (k % a.width) as u64,
    })
}

// One of so many rows from a row on.
fn in_rows(p: Place, row: u64, rows: u64) -> bool {
    row <= p.row && p.row - row < rows
}

// The value into a column of so many rows.
pub fn fill(cells: &mut [u64], a: Area, row: u64, column: u64, rows: u64, value: u64) {
    for i in a.at..a.end {
        if let Some(p) = place_in(a, i)
            && p.column == column
            && in_rows(p, row, rows)
        {
            set(cells, i, value);
        }
    }
}

// The cells of so many rows, each with a comma behind it.
pub fn show(cells: &[u64], a: Area, row: u64, rows: u64, out: &mut [u8], w: Written) -> Written {
    let mut k = w;
    for i in a.at..a.end {
        if let Some(p) = place_in(a, i)
            && in_rows(p, row, rows)
        {
            k = append_number(out, k, get(cells, i), 10, b',');
        }
    }
    k
}

// So many cells from one place on are those from another on. Cell by cell, as `copy`: a place behind the last cell counts as 0, and slices have none.
pub fn same(cells: &[u64], from: usize, other: usize, n: usize) -> bool {
    for i in 0..n {
        if get(cells, from.wrapping_add(i)) != get(cells, other.wrapping_add(i)) {
            return false;
        }
    }
    true
}

// They become those.
pub fn copy(cells: &mut [u64], from: usize, to: usize, n: usize) {
    for i in 0..n {
        let v = get(cells, from.wrapping_add(i));
        set(cells, to.wrapping_add(i), v);
    }
}

// The cells from a place on, as many as the other table has.
pub fn take_out(cells: &[u64], at: usize, table: &mut [u64]) {
    for (i, cell) in table.iter_mut().enumerate() {
        *cell = get(cells, at.wrapping_add(i));
    }
}

pub fn put_back(cells: &mut [u64], at: usize, table: &[u64]) {
    for (i, cell) in table.iter().enumerate() {
        set(cells, at.wrapping_add(i), *cell);
    }
}

pub fn not_zero(table: &[u64]) -> usize
    ensures { result ≤ length table.now }
{
    table.iter().filter(|cell| **cell != 0).count()
}

// One index of a schema table built anew, where the counts are in their range.
fn reindex_schema(schema: &mut [u64], x: Index) {
    if schema.len() != SCHEMA_SIZE
        || GROUP_LIMIT < schema[1] as usize
        || ROW_LIMIT < schema[2] as usize
    {
        return;
    }
    let mut index = [0u64; INDEX_SIZE];
    fill_index(&mut index, schema, x);
    put_back(schema, x.at(), &index);
}

fn reindex(cells: &mut [u64], x: Index) {
    let n = cut(SCHEMA_SIZE, cells);
    reindex_schema(&mut cells[..n], x);
}

// The indexes that fit the rows.
pub fn reindex_all(cells: &mut [u64]) {
    for x in [Index::Groups, Index::Names, Index::Paths] {
        reindex(cells, x);
    }
}
