// Cells of a table, stored one behind the other.

ghost use Rattle.std.specs.Prelude.{◌≡◌, ◌+◌, ◌*◌, ◌≤◌, ◌<◌, length, set};
ghost use Rattle.tables.specs.Cells.{puts};
ghost use Rattle.tables.specs.Index.{place_number};

// The first of them at this place.
pub fn put(s: &mut [u64], at: usize, cells: &[u64])
    requires { at + length cells.now ≤ length s.old }
    ensures { s.new ≡ puts s.old at cells.now }
{
    s[at..at + cells.len()].copy_from_slice(cells);
}

// Row m of the area that begins at this place, all of one width, and then so many rows in the cell that counts them.
pub fn push_row(table: &mut [u64], counter: usize, at: usize, m: usize, row: &[u64])
    requires counter_in_bounds { counter < length table.old }
    requires m_in_bounds { m < length table.old }
    requires row_in_bounds { at + m * length row.now + length row.now ≤ length table.old }
    ensures { table.new ≡ set (puts table.old (at + m * length row.now) row.now) counter (m + 1) }
{
    put(table, at + m * row.len(), row);
    table[counter] = m as u64 + 1;
}

// The place in a cell that holds it as place + 1, 0 for none.
pub fn place_in(c: u64) -> Option<usize>
    ensures { place_number result ≡ c }
{
    if c == 0 { None } else { Some((c - 1) as usize) }
}
