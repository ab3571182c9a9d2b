// What a run can still show of functions that are held to equations: machine words, floats and bytes as compiled. A truth is printed as 1 or 0.
use std::cmp::Ordering;
use std::{fmt, io};
use tables::file_set::FileSet;
use tables::limits::FILE_LIMIT;
use tables::numbers::FileNumber;
use tables::path::Path;
use tables::text;
use tables::text::{Place, StoredText, Text};

// ---- file sets, at the first and the last file and past it

const LAST: u64 = FILE_LIMIT - 1;

fn holds(s: FileSet, file: u64) -> u8 {
    s.holds(FileNumber(file)) as u8
}

fn without(s: FileSet, file: u64) -> u64 {
    s.without(FileNumber(file)).bits()
}

fn part_of(s: FileSet, o: FileSet) -> u8 {
    s.part_of(o) as u8
}

fn file_sets(rt: &impl Print) -> io::Result<()> {
    let s = FileSet::from_bits(0x8000_0000_0000_0001);
    let none = FileSet::none();
    let one = FileSet::from_bits(1);
    let two = FileSet::from_bits(3);
    println!(rt;
        "holds {} {} {} {}",
        holds(s, LAST),
        holds(s, 0),
        holds(s, 5),
        holds(s, FILE_LIMIT)
    )?;
    let with_five = s.with(FileNumber(5));
    let with_last = s.with(FileNumber(LAST));
    println!(rt; "with {} {}", with_five.bits(), with_last.bits())?;
    println!(rt;
        "without {} {} {} {}",
        without(s, LAST),
        without(s, 0),
        without(s, 5),
        without(s, 200)
    )?;
    println!(rt; "empty {} {}", none.is_empty() as u8, s.is_empty() as u8)?;
    println!(rt;
        "part of {} {} {} {}",
        part_of(one, s),
        part_of(two, s),
        part_of(none, s),
        part_of(s, one)
    )
}

// ---- paths: 1.2.3, 1.2, 1.2.4.0 and the empty one, each part held as part + 1

fn order(p: Path, q: Path) -> &'static str {
    match p.order(q) {
        Ordering::Less => "less",
        Ordering::Equal => "equal",
        Ordering::Greater => "greater",
    }
}

#[derive(Clone, Copy)]
struct PathShown(Path);

impl fmt::Display for PathShown {
    fn fmt<W: fmt::Write>(&self, f: &mut fmt::Formatter<W>) -> fmt::Result {
        let p = self.0;
        write!(f, "path {} {} {} {}", p.0, p.1, p.2, p.3)
    }
}

fn shared(p: Path, q: Path) -> PathShown {
    PathShown(p.shared(q))
}

fn paths(rt: &impl Print) -> io::Result<()> {
    let p = Path(2, 3, 4, 0);
    let q = Path(2, 3, 0, 0);
    let r = Path(2, 3, 5, 1);
    let e = Path(0, 0, 0, 0);
    println!(rt;
        "parts {} {} {} {} {}",
        r.part(0),
        r.part(1),
        r.part(2),
        r.part(3),
        r.part(4)
    )?;
    println!(rt;
        "order {} {} {} {} {}",
        order(p, q),
        order(q, p),
        order(p, p),
        order(p, r),
        order(e, p)
    )?;
    println!(rt; "same {} {}", p.same(p) as u8, p.same(r) as u8)?;
    println!(rt;
        "shared {} {} {} {}",
        shared(p, r),
        shared(p, q),
        shared(r, r),
        shared(e, r)
    )
}

// ---- texts: as a table holds them, and when two are equal

#[derive(Clone, Copy)]
struct TextShown(Text);

impl fmt::Display for TextShown {
    fn fmt<W: fmt::Write>(&self, f: &mut fmt::Formatter<W>) -> fmt::Result {
        match self.0 {
            Text::Number(n) => write!(f, "number {n}"),
            Text::Str(p) => write!(f, "string {} {}", p.start, p.size),
            Text::Whole(n) => write!(f, "whole {n}"),
            Text::Float(x) => write!(f, "float {}", text::same_float(x, 1.5) as u8),
        }
    }
}

fn of_cells(kind: u64, value: u64) -> TextShown {
    TextShown(text::text_of(StoredText::from_cells(kind, value)))
}

fn texts(rt: &impl Print) -> io::Result<()> {
    println!(rt;
        "texts {} {} {} {}",
        of_cells(0, 7),
        of_cells(1, 196610),
        of_cells(2, 18446744073709551615),
        of_cells(3, 0x3ff8_0000_0000_0000)
    )
}

// Whether the two are equal as floats and as texts.
fn floats(rt: &impl Print, a: u64, b: u64) -> io::Result<()> {
    let x = text::float_of(a);
    let y = text::float_of(b);
    let same = text::same_text(Text::Float(x), Text::Float(y), b"");
    print!(rt; " {} {}", text::same_float(x, y) as u8, same as u8)
}

// Two NaNs, both zeros, both infinities, a NaN and zero, one and two, the smallest number and zero, and itself.
fn all_floats(rt: &impl Print) -> io::Result<()> {
    print!(rt; "same float")?;
    floats(rt, 0x7ff8_0000_0000_0001, 0xfff0_0000_0000_0002)?;
    floats(rt, 0, 0x8000_0000_0000_0000)?;
    floats(rt, 0x7ff0_0000_0000_0000, 0xfff0_0000_0000_0000)?;
    floats(rt, 0x7ff8_0000_0000_0001, 0)?;
    floats(rt, 0x3ff0_0000_0000_0000, 0x4000_0000_0000_0000)?;
    floats(rt, 1, 0)?;
    floats(rt, 1, 1)?;
    println!(rt; "")
}

// Whether the strings at two places of the deck are equal as strings and as texts.
fn strings(rt: &impl Print, deck: &[u8], p: Place, q: Place) -> io::Result<()> {
    let size = deck.len();
    if size < p.start || size - p.start < p.size || size < q.start || size - q.start < q.size {
        return Ok(());
    }
    let same = text::same_text(Text::Str(p), Text::Str(q), deck);
    print!(rt; " {} {}", text::same_string(p, q, deck) as u8, same as u8)
}

fn all_strings(rt: &impl Print, deck: &[u8]) -> io::Result<()> {
    let first = Place { start: 0, size: 3 };
    print!(rt; "same string")?;
    strings(rt, deck, first, Place { start: 3, size: 3 })?;
    strings(rt, deck, first, Place { start: 6, size: 3 })?;
    strings(rt, deck, first, Place { start: 3, size: 2 })?;
    strings(
        rt,
        deck,
        Place { start: 9, size: 0 },
        Place { start: 0, size: 0 },
    )?;
    println!(rt; "")
}

fn numbers(rt: &impl Print) -> io::Result<()> {
    let numbers = text::same_text(Text::Number(7), Text::Number(7), b"");
    let others = text::same_text(Text::Number(7), Text::Number(8), b"");
    let wholes = text::same_text(Text::Whole(7), Text::Whole(7), b"");
    let kinds = text::same_text(Text::Number(7), Text::Whole(7), b"");
    println!(rt;
        "same number {} {} {} {}",
        numbers as u8, others as u8, wholes as u8, kinds as u8
    )
}

fn all_texts(rt: &impl Print) -> io::Result<()> {
    texts(rt)?;
    all_floats(rt)?;
    all_strings(rt, b"abcabcabd")?;
    numbers(rt)
}

pub fn run(rt: &impl Print) -> io::Result<()> {
    file_sets(rt)?;
    paths(rt)?;
    all_texts(rt)
}
