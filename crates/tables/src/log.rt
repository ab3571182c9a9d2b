// The log table: the count of entries; then the entries, oldest first: kind (0 import, 1 restriction, 2 extension), element, new parent
// or file, old parent + 1 (0 for none), old set; then zeros. A restriction has no new parent and no old one, an extension no old set.

ghost use Rattle.std.specs.Prelude.{◌≡◌, [], ◌∷◌, ◌+◌, ◌<◌, ◌≤◌, length, get_or, drop};
ghost use Rattle.tables.specs.Cells.{puts};
ghost use Rattle.tables.specs.Limits.{log_limit, element_limit};
ghost use Rattle.tables.specs.ModelTable.{parent_is, parent_cell, cell_parent, ParentBelow};
ghost use Rattle.tables.specs.SetCells.{set_is, set_cells, cells_set};
ghost use Rattle.tables.specs.LogTable.{log_of, GoodLog, HoldsLog, entry_at, entry_cells, entry_is, EntryFits, entry_width, old_set_at};

use crate::cells::put;
use crate::file_set::{FileSet, SET_WIDTH, read_set, store_set};
use crate::limits::LOG_LIMIT;
use crate::model;
use crate::numbers::{Element, FileNumber};

// Where the old set begins in an entry, the cells of an entry, where the entries begin, and the table's size.
pub const OLD_SET_AT: usize = 4;

pub const ENTRY_WIDTH: usize = OLD_SET_AT + SET_WIDTH;

pub const ENTRIES_AT: usize = 1;

pub const LOG_SIZE: usize = ENTRIES_AT + LOG_LIMIT * ENTRY_WIDTH;

#[derive(Clone, Copy)]
pub enum Entry {
    // The element, its new parent, its old parent and set.
    Import(Element, Element, Option<Element>, FileSet),
    // The element and its old set.
    Restriction(Element, FileSet),
    // The element and the file.
    Extension(Element, FileNumber),
}

// How many entries the log has.
pub fn log_length(log: &[u64]) -> usize
    requires { GoodLog log.now }
    ensures { result ≡ length (log_of log.now) }
{
    log[0] as usize
}

// One cell of entry i before its set.
fn entry_cell(log: &[u64], i: usize, field: usize) -> u64
    requires good_log { GoodLog log.now }
    requires i_in_bounds { i < length (log_of log.now) }
    requires field_lt_old_set_at { field < old_set_at }
    ensures { result ≡ get_or (entry_cells (entry_at (log_of log.now) i)) field 0 }
{
    log[ENTRIES_AT + (i * ENTRY_WIDTH + field)]
}

// The old set of entry i.
fn entry_set(log: &[u64], i: usize) -> FileSet
    requires good_log { GoodLog log.now }
    requires i_in_bounds { i < length (log_of log.now) }
    ensures { set_is result ≡ cells_set (drop old_set_at (entry_cells (entry_at (log_of log.now) i))) }
{
    read_set(log, ENTRIES_AT + (i * ENTRY_WIDTH + OLD_SET_AT))
}

// Entry i, the oldest is 0.
pub fn entry_at(log: &[u64], i: usize) -> Entry
    requires good_log { GoodLog log.now }
    requires i_in_bounds { i < length (log_of log.now) }
    ensures { entry_is result ≡ entry_at (log_of log.now) i }
{
    // A number, as the cell has it.
    let kind = entry_cell(log, i, 0);
    let e = entry_cell(log, i, 1) as usize;
    let third = entry_cell(log, i, 2);
    match kind {
        0 => Entry::Import(
            Element(e),
            Element(third as usize),
            model::cell_parent(entry_cell(log, i, 3)),
            entry_set(log, i),
        ),
        1 => Entry::Restriction(Element(e), entry_set(log, i)),
        _ => Entry::Extension(Element(e), FileNumber(third)),
    }
}

// An entry's cells, the set as one.
#[derive(Clone, Copy)]
struct EntryCells {
    kind: u64,
    element: u64,
    third: u64,
    old: u64,
    set: FileSet,
}

// No `From`, which cannot ask that the entry fits.
fn entry_cells(e: Entry) -> EntryCells
    requires { EntryFits (entry_is e) }
    ensures { entry_cells (entry_is e) ≡ result.kind ∷ result.element ∷ result.third ∷ result.old ∷ set_cells (set_is result.set) }
{
    match e {
        Entry::Import(x, p, old, set) => EntryCells {
            kind: 0,
            element: x.0 as u64,
            third: p.0 as u64,
            old: model::parent_cell(old),
            set: set,
        },
        Entry::Restriction(x, set) => EntryCells {
            kind: 1,
            element: x.0 as u64,
            third: 0,
            old: 0,
            set: set,
        },
        Entry::Extension(x, f) => EntryCells {
            kind: 2,
            element: x.0 as u64,
            third: f.0,
            old: 0,
            set: FileSet::none(),
        },
    }
}

// An entry's cells, the first at this place.
fn put_entry(log: &mut [u64], at: usize, c: EntryCells)
    requires { at + entry_width ≤ length log.old }
    ensures { log.new ≡ puts log.old at (c.kind ∷ c.element ∷ c.third ∷ c.old ∷ set_cells (set_is c.set)) }
{
    put(log, at, &[c.kind, c.element, c.third, c.old]);
    store_set(log, at + OLD_SET_AT, c.set);
}

// One more entry, the newest.
pub fn push_entry(log: &mut [u64], e: Entry)
    requires good_log { GoodLog log.old }
    requires log_len_bound { length (log_of log.old) < log_limit }
    requires entry_fits { EntryFits (entry_is e) }
    ensures { HoldsLog log.new (entry_is e ∷ log_of log.old) }
{
    let c = entry_cells(e);
    let n = log_length(log);
    put_entry(log, ENTRIES_AT + n * ENTRY_WIDTH, c);
    log[0] = n as u64 + 1;
}

// The newest entry leaves the log.
pub fn pop_entry(log: &mut [u64])
    requires good_log { GoodLog log.old }
    requires nonzero { 0 < length (log_of log.old) }
    ensures { HoldsLog log.new (drop 1 (log_of log.old)) }
{
    let n = log_length(log) - 1;
    let zeros = EntryCells {
        kind: 0,
        element: 0,
        third: 0,
        old: 0,
        set: FileSet::none(),
    };
    put_entry(log, ENTRIES_AT + n * ENTRY_WIDTH, zeros);
    log[0] = n as u64;
}
