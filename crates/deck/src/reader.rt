// The line reader: the deck, and the byte at which the next line begins.
ghost use Rattle.std.specs.Prelude.{◌≡◌, ◌≤◌, length};
ghost use Rattle.tables.specs.Limits.{deck_limit};
ghost use Rattle.deck.specs.Answers.{EndReads, NextReads};

use crate::lines::{Line, line_end, read_line};

#[derive(Clone, Copy)]
pub struct LineReader<'a> {
    pub deck: &'a [u8],
    pub at: usize,
}

// A line, none where its form is wrong, and the byte behind its LF.
#[derive(Clone, Copy)]
pub struct NextLine {
    pub line: Option<Line>,
    pub behind: usize,
}

// The LF of the line that begins at this byte; none for bytes without LF, the last ones.
fn end_at(deck: &[u8], at: usize) -> Option<usize>
    requires { at ≤ length deck.now }
    ensures { EndReads deck.now at result }
{
    let end = line_end(deck, at);
    if deck.len() <= end {
        return None;
    }
    Some(end)
}

fn line_reader<'a>(deck: &'a [u8], at: usize) -> LineReader<'a>
    ensures { (result.deck ≡ deck.entry) × (result.at ≡ at) }
{
    LineReader { deck, at }
}

// The search for a line's end stands in thin functions over ones that the borrow checker covers, not in methods of the reader.
fn next_end<'a>(r: LineReader<'a>) -> Option<usize>
    requires { r.at ≤ length r.deck.now }
    ensures { EndReads r.entry.deck.now r.entry.at result }
{
    end_at(r.deck, r.at)
}

// A reader at this byte, and where its line ends.
fn end_from(deck: &[u8], at: usize) -> Option<usize>
    requires { at ≤ length deck.now }
    ensures { EndReads deck.now at result }
{
    next_end(line_reader(deck, at))
}

// The line that begins at this byte; none for bytes without LF, the last ones.
pub fn line_from(deck: &[u8], at: usize) -> Option<NextLine>
    requires { (length deck.now ≤ deck_limit) × (at ≤ length deck.now) }
    ensures { NextReads deck.now at result }
{
    let end = end_from(deck, at)?;
    let behind = end + 1;
    Some(NextLine {
        line: read_line(deck, at, end),
        behind,
    })
}
