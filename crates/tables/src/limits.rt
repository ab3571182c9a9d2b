// The limits: the largest count of each thing, and the largest number of each field, each written once.

// Bytes of a deck.
pub const DECK_LIMIT: usize = 32768;

pub const TYPE_LIMIT: usize = 128;

pub const ROW_LIMIT: usize = 512;

pub const GROUP_LIMIT: usize = 128;

// Parts of a path.
pub const PATH_LIMIT: usize = 4;

// Files are numbered from 0, below this.
pub const FILE_LIMIT: u64 = 64;

// Versions are numbered from 0, below this.
pub const VERSION_LIMIT: u64 = 32;

pub const ELEMENT_LIMIT: usize = 1024;

// The largest depth.
pub const DEPTH_LIMIT: u64 = 31;

// Content items over all lists.
pub const ITEM_LIMIT: usize = 2048;

// Entries of a full log.
pub const LOG_LIMIT: usize = 1024;

// The largest name.
pub const NAME_LIMIT: u64 = 4095;

// The largest enum number.
pub const ENUM_LIMIT: u64 = 65535;

// Strings are shorter than this.
pub const STRING_LIMIT: u64 = 65536;

// The largest part of a path.
pub const PART_LIMIT: u64 = 255;

// Masks are below this: a bit for each version.
pub const MASK_LIMIT: u64 = 4294967296;
