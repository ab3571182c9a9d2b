// The four tables in one array, one behind the other, each with a cell more than it has; behind them those that are kept, and those of before
// the last call. And the areas of the tables by their names.
use tables::elements::{
    ELEMENT_WIDTH, ELEMENTS_AT, ELEMENTS_SIZE, TEXT_WIDTH, TEXTS_AT, TREE_WIDTH, TREES_AT,
};
use tables::file_set::SET_WIDTH;
use tables::index::BUCKETS;
use tables::log::{ENTRIES_AT, ENTRY_WIDTH, LOG_SIZE, OLD_SET_AT};
use tables::model::{ITEMS_AT, MODEL_SIZE, PARENTS_AT, SETS_AT, STARTS_AT};
use tables::schema::{
    FILE_WIDTH, FILES_AT, GROUP_INDEX_AT, GROUP_WIDTH, GROUPS_AT, NAME_INDEX_AT, PATH_INDEX_AT,
    ROW_WIDTH, ROWS_AT, SCHEMA_SIZE, TYPE_WIDTH, TYPES_AT,
};

// Where each table but the schema's begins, and the cells of the four.
pub const ELEMENTS: usize = SCHEMA_SIZE + 1;

pub const MODEL: usize = ELEMENTS + ELEMENTS_SIZE + 1;

pub const LOG: usize = MODEL + MODEL_SIZE + 1;

pub const CELLS: usize = LOG + LOG_SIZE + 1;

// Where the kept tables begin, and those of before the last call; and the cells of all.
pub const KEPT: usize = CELLS;

pub const BEFORE: usize = KEPT + CELLS;

pub const ALL_CELLS: usize = BEFORE + CELLS;

// Where an area begins, the cells from a row to the next, where its table ends, and whether the indexes are of its rows.
#[derive(Clone, Copy)]
pub struct Area {
    pub at: usize,
    pub width: usize,
    pub end: usize,
    pub indexed: bool,
}

fn plain(at: usize, width: usize, end: usize) -> Area {
    Area {
        at,
        width,
        end,
        indexed: false,
    }
}

// Every cell of all tables.
pub fn everything() -> Area {
    plain(0, 1, CELLS)
}

fn indexed(at: usize, width: usize) -> Area {
    Area {
        at,
        width,
        end: ELEMENTS,
        indexed: true,
    }
}

// The heads or the links of an index.
fn index_cells(at: usize) -> Area {
    plain(at, 1, ELEMENTS)
}

// The area of this name, if there is one: nothing else knows areas.
pub fn area_of(name: &[u8]) -> Option<Area> {
    match name {
        b"schema-counts" => Some(indexed(0, TYPES_AT)),
        b"types" => Some(indexed(TYPES_AT, TYPE_WIDTH)),
        b"groups" => Some(indexed(GROUPS_AT, GROUP_WIDTH)),
        b"rows" => Some(indexed(ROWS_AT, ROW_WIDTH)),
        b"files" => Some(indexed(FILES_AT, FILE_WIDTH)),
        b"group-heads" => Some(index_cells(GROUP_INDEX_AT)),
        b"group-links" => Some(index_cells(GROUP_INDEX_AT + BUCKETS)),
        b"name-heads" => Some(index_cells(NAME_INDEX_AT)),
        b"name-links" => Some(index_cells(NAME_INDEX_AT + BUCKETS)),
        b"path-heads" => Some(index_cells(PATH_INDEX_AT)),
        b"path-links" => Some(index_cells(PATH_INDEX_AT + BUCKETS)),
        b"element-counts" => Some(plain(ELEMENTS, ELEMENTS_AT, MODEL)),
        b"elements" => Some(plain(ELEMENTS + ELEMENTS_AT, ELEMENT_WIDTH, MODEL)),
        b"texts" => Some(plain(ELEMENTS + TEXTS_AT, TEXT_WIDTH, MODEL)),
        b"trees" => Some(plain(ELEMENTS + TREES_AT, TREE_WIDTH, MODEL)),
        b"model-count" => Some(plain(MODEL, PARENTS_AT, LOG)),
        b"parents" => Some(plain(MODEL + PARENTS_AT, 1, LOG)),
        b"starts" => Some(plain(MODEL + STARTS_AT, 1, LOG)),
        b"items" => Some(plain(MODEL + ITEMS_AT, 1, LOG)),
        b"sets" => Some(plain(MODEL + SETS_AT, SET_WIDTH, LOG)),
        b"log-count" => Some(plain(LOG, ENTRIES_AT, CELLS)),
        b"entries" => Some(plain(LOG + ENTRIES_AT, ENTRY_WIDTH, CELLS)),
        b"old-sets" => Some(plain(LOG + ENTRIES_AT + OLD_SET_AT, ENTRY_WIDTH, CELLS)),
        _ => None,
    }
}
