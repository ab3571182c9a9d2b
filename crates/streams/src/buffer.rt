// Buffers for a deck, and for a part of the output or a list of calls. Their lengths are said here once, so that no caller has to count.
ghost use Rattle.std.specs.Prelude.{◌≡◌, length};

use tables::limits::DECK_LIMIT;

pub const MEGABYTE: usize = 1048576;

// The most bytes of a list of calls: one less than the buffer has, so that a longer one is noticed.
pub const CALLS_LIMIT: usize = MEGABYTE - 1;

pub fn megabyte() -> [u8; MEGABYTE]
    ensures { 1048576 ≡ length result }
{
    [0; MEGABYTE]
}

// One byte more than a deck may have, so that a longer one is noticed.
pub const DECK_BUFFER: usize = DECK_LIMIT + 1;

pub fn deck_buffer() -> [u8; DECK_BUFFER]
    ensures { 32769 ≡ length result }
{
    [0; DECK_BUFFER]
}
