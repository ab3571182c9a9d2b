// File sets: bit f for file f; 0 means no set stored. The functions of this file alone know how a set is held.

ghost use Rattle.std.specs.Prelude.{◌≡◌, ◌+◌, ◌<◌, ◌≤◌, eqb, length, take, drop};
ghost use Rattle.tables.specs.Cells.{puts};
ghost use Rattle.tables.specs.FileSets.{holds, with_file, without_file, no_set, part_of};
ghost use Rattle.tables.specs.Limits.{file_limit};
ghost use Rattle.tables.specs.SetCells.{set_is, set_width, set_cells, cells_set};

use crate::limits::FILE_LIMIT;
use crate::numbers::FileNumber;

#[derive(Clone, Copy)]
pub struct FileSet(u64);

// Cells of a set in a table.
pub const SET_WIDTH: usize = 1;

impl FileSet {
    pub fn none() -> FileSet
        ensures { set_is result ≡ no_set }
    {
        FileSet(0)
    }

    // The set of a deck's field.
    pub fn from_bits(n: u64) -> FileSet
        ensures { set_is result ≡ n }
    {
        FileSet(n)
    }

    // The set as a line prints it.
    pub fn bits(self) -> u64
        ensures { result ≡ set_is self }
    {
        self.0
    }

    pub fn holds(self, f: FileNumber) -> bool
        ensures { result ≡ holds (set_is self) f.0 }
    {
        let s = self.0;
        let v = f.0;
        if v < FILE_LIMIT {
            (s >> v) % 2 == 1
        } else {
            false
        }
    }

    // The set with the file in it.
    pub fn with(self, f: FileNumber) -> FileSet
        requires { f.0 < file_limit }
        ensures { set_is result ≡ with_file (set_is self) f.0 }
    {
        let s = self.0;
        let v = f.0;
        FileSet(s | (1u64 << v))
    }

    // The set with the file out of it.
    pub fn without(self, f: FileNumber) -> FileSet
        ensures { set_is result ≡ without_file (set_is self) f.0 }
    {
        let s = self.0;
        let v = f.0;
        if v < FILE_LIMIT {
            FileSet(s ^ (s & (1u64 << v)))
        } else {
            self
        }
    }

    pub fn is_empty(self) -> bool
        ensures { result ≡ eqb (set_is self) no_set }
    {
        self.0 == 0
    }

    // Every file of this set is in the other.
    pub fn part_of(self, o: FileSet) -> bool
        ensures { result ≡ part_of (set_is self) (set_is o) }
    {
        let s = self.0;
        let t = o.0;
        s & t == s
    }
}

// The set whose cells begin at this place.
pub fn read_set(cells: &[u64], at: usize) -> FileSet
    requires { at + set_width ≤ length cells.now }
    ensures { set_is result ≡ cells_set (take set_width (drop at cells.now)) }
{
    FileSet(cells[at])
}

pub fn store_set(cells: &mut [u64], at: usize, s: FileSet)
    requires { at + set_width ≤ length cells.old }
    ensures { cells.new ≡ puts cells.old at (set_cells (set_is s)) }
{
    cells[at] = s.0;
}
