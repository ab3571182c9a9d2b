// What a line of a script says.
ghost use Rattle.deck.specs.Answers.{Placed};

use crate::areas::{Area, area_of};
use deck::lines::{Fields, bytes_of};
use requests::requests::{Request, word_at};

#[derive(Clone, Copy)]
pub enum Table {
    Schema,
    Elements,
    Model,
    Log,
}

// A call on the tables as they are lent. It names three requests again: with a Request inside, each match on a call would also meet those that
// are no step here.
#[derive(Clone, Copy)]
pub enum Call {
    Load,
    Merge {
        file: u64,
    },
    Rollback {
        mark: u64,
    },
    Range {
        element: u64,
        name: u64,
        version: u64,
    },
    Test,
    Count,
}

// A step, with what its line says.
#[derive(Clone, Copy)]
pub enum Step<'a> {
    Deck {
        file: &'a [u8],
    },
    Call(Call),
    Put {
        area: Area,
        row: u64,
        column: u64,
        value: u64,
        rows: u64,
    },
    Show {
        name: &'a [u8],
        area: Area,
        row: u64,
        rows: u64,
    },
    All {
        value: u64,
    },
    Size {
        table: Table,
        cells: u64,
    },
    Keep,
    Back,
    Same,
    Kept,
}

// `put,area,row,column,value`, and behind it how many rows, if not 1
fn read_put(script: &[u8], f: Fields) -> Option<Step<'_>>
    requires { Placed script.now f }
{
    let area = area_of(bytes_of(script, f, 1))?;
    let row = word_at(script, f, 2)?;
    let column = word_at(script, f, 3)?;
    let value = word_at(script, f, 4)?;
    let rows = match f.count {
        5 => 1,
        6 => word_at(script, f, 5)?,
        _ => return None,
    };
    if area.width as u64 <= column {
        return None;
    }
    Some(Step::Put {
        area,
        row,
        column,
        value,
        rows,
    })
}

// `show,area,row,rows`
fn read_show(script: &[u8], f: Fields) -> Option<Step<'_>>
    requires { Placed script.now f }
{
    let name = bytes_of(script, f, 1);
    let area = area_of(name)?;
    let row = word_at(script, f, 2)?;
    let rows = word_at(script, f, 3)?;
    if f.count == 4 {
        Some(Step::Show {
            name,
            area,
            row,
            rows,
        })
    } else {
        None
    }
}

// `size,table,cells`
fn read_size(script: &[u8], f: Fields) -> Option<Step<'_>>
    requires { Placed script.now f }
{
    let table = match bytes_of(script, f, 1) {
        b"schema" => Table::Schema,
        b"elements" => Table::Elements,
        b"model" => Table::Model,
        b"log" => Table::Log,
        _ => return None,
    };
    let cells = word_at(script, f, 2)?;
    if f.count == 3 {
        Some(Step::Size { table, cells })
    } else {
        None
    }
}

// `all,value`
fn read_all(script: &[u8], f: Fields) -> Option<Step<'_>>
    requires { Placed script.now f }
{
    let value = word_at(script, f, 1)?;
    if f.count == 2 {
        Some(Step::All { value })
    } else {
        None
    }
}

// `deck,file`
fn read_deck(script: &[u8], f: Fields) -> Option<Step<'_>>
    requires { Placed script.now f }
{
    let file = bytes_of(script, f, 1);
    if f.count == 2 {
        Some(Step::Deck { file })
    } else {
        None
    }
}

// The step of a line of one word.
fn read_word(script: &[u8], f: Fields) -> Option<Step<'_>>
    requires { Placed script.now f }
{
    match bytes_of(script, f, 0) {
        b"test" => Some(Step::Call(Call::Test)),
        b"cells" => Some(Step::Call(Call::Count)),
        b"same" => Some(Step::Same),
        b"kept" => Some(Step::Kept),
        b"keep" => Some(Step::Keep),
        b"back" => Some(Step::Back),
        _ => None,
    }
}

// A line that no list of calls has.
pub fn read_step(script: &[u8], f: Fields) -> Option<Step<'_>>
    requires { Placed script.now f }
{
    if f.count == 1 {
        return read_word(script, f);
    }
    match bytes_of(script, f, 0) {
        b"put" => read_put(script, f),
        b"show" => read_show(script, f),
        b"size" => read_size(script, f),
        b"all" => read_all(script, f),
        b"deck" => read_deck(script, f),
        _ => None,
    }
}

// A line of a list of calls; what prints trees or a log there is no step here. No TryFrom: there is nothing to say of an error.
pub fn of_request(r: Request) -> Option<Call> {
    match r {
        Request::Merge(file) => Some(Call::Merge { file }),
        Request::Rollback(mark) => Some(Call::Rollback { mark }),
        Request::Range {
            element,
            name,
            version,
        } => Some(Call::Range {
            element,
            name,
            version,
        }),
        Request::Model | Request::Trees | Request::Log => None,
    }
}
