// What a script stands at, beside the tables.
use printing::buffer::Written;
use tables::elements::ELEMENTS_SIZE;
use tables::log::LOG_SIZE;
use tables::model::MODEL_SIZE;
use tables::schema::SCHEMA_SIZE;

// Lengths and no slices: a script's `size` lends a table shorter or longer, and the length is what is tried.
// The cells that each table is lent with, the bytes of the deck, and the bytes printed.
#[derive(Clone, Copy)]
pub struct State {
    pub schema: usize,
    pub elements: usize,
    pub model: usize,
    pub log: usize,
    pub deck: usize,
    pub count: usize,
}

pub fn begin() -> State {
    State {
        schema: SCHEMA_SIZE,
        elements: ELEMENTS_SIZE,
        model: MODEL_SIZE,
        log: LOG_SIZE,
        deck: 0,
        count: 0,
    }
}

// Where the output goes on.
pub fn output(s: State) -> Written {
    Written {
        skip: 0,
        count: s.count,
    }
}

pub fn printed(s: State, w: Written) -> State {
    State {
        count: w.count,
        ..s
    }
}
