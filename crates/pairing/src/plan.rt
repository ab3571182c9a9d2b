// A level's plan in the scratch slice. For each child of A a row of two cells, its number and its mate's number + 1, or 0; then the B-only
// list, rows of two cells, element and position; behind it, during the walk, the numbers of B's children and the marks
// of their keys. It is one slice of numbers, lent for all levels, since there is no heap; the marks lie side by side, so that several are compared at a
// time.
ghost use Rattle.std.specs.Prelude.{◌≡◌, ℕ, ◌+◌, ◌-◌, ◌*◌, ◌<◌, ◌≤◌, length, get_or, set};
ghost use Rattle.tables.specs.Limits.{element_limit, item_limit};
ghost use Rattle.merge_rules.specs.Pairing.{first_used_twice};
ghost use Rattle.pairing.specs.Plans.{plan_up_to, plan_in, planned_is, or_used_twice, RowsIn, PlanIn};
ghost use Rattle.pairing.specs.Walks.{second_children, StepIn, WorkRoom, imported_again, paired_again, is_paired, is_repeated, Counted, Advances, Imports, Finishes};

use crate::action::Action;
use tables::numbers::Element;

// What the plan so far does with a child of B. The array of these is as large as one of bytes.
#[derive(Clone, Copy, PartialEq, Eq)]
pub enum Use {
    Unused,
    Imported,
    ImportedAgain,
    Paired,
    PairedAgain,
}

impl Use {
    // After one import more.
    fn imported_again(self) -> Use
        ensures { result ≡ imported_again self }
    {
        match self {
            Use::Unused => Use::Imported,
            _ => Use::ImportedAgain,
        }
    }

    // After one pair more.
    fn paired_again(self) -> Use
        ensures { result ≡ paired_again self }
    {
        match self {
            Use::Unused => Use::Paired,
            _ => Use::PairedAgain,
        }
    }

    fn is_paired(self) -> bool
        ensures { result ≡ is_paired self }
    {
        matches!(self, Use::Paired | Use::PairedAgain)
    }

    // Whether there is more than one use.
    fn is_repeated(self) -> bool
        ensures { result ≡ is_repeated self }
    {
        matches!(self, Use::ImportedAgain | Use::PairedAgain)
    }
}

// A plan: how many rows of A, and of the B-only list.
#[derive(Clone, Copy, PartialEq, Eq)]
pub struct Rows {
    pub first: usize,
    pub new: usize,
}

// Refusal 8 with the B child; refusal 6.
#[derive(Clone, Copy, PartialEq, Eq)]
pub enum Unplanned {
    UsedTwice(Element),
    Unmergeable,
}

// How many rows A has, and where the numbers of B's children start and end: places, since these parts lie in one slice that is lent as `&mut`.
#[derive(Clone, Copy)]
pub struct Sides {
    pub rows: usize,
    pub start: usize,
    pub end: usize,
}

// The cursor children's indices, and how many children are in the B-only list.
#[derive(Clone, Copy)]
pub struct Cursors {
    pub a: usize,
    pub b: usize,
    pub new: usize,
}

// The child of A in row i is paired with e.
fn pair_row(work: &mut [u16], uses: &mut [Use], i: usize, e: usize)
    requires i_in_bounds { 2 * i + 1 < length work.old }
    requires e_lt_element_limit { e < element_limit }
    requires e_in_bounds { e < length uses.old }
    ensures work_after { work.new ≡ set work.old (2 * i + 1) (e + 1) }
    ensures uses_after { uses.new ≡ set uses.old e (paired_again (get_or uses.old e Use.Unused)) }
{
    let at = 2 * i + 1;
    work[at] = e as u16 + 1;
    let used = uses[e];
    uses[e] = used.paired_again();
}

// The first child of A is paired with the child of B at this place.
pub fn pair_first(work: &mut [u16], at: usize)
    requires in_bounds { 1 < length work.old }
    requires at_in_bounds { at < length work.old }
    requires at_bound { get_or work.old at 0 < element_limit }
    ensures { work.new ≡ set work.old 1 (get_or work.old at 0 + 1) }
{
    work[1] = work[at] + 1;
}

// B-only: the cursor child of B at this position, unless it is already paired. Gives the length of the B-only list.
fn import_next(work: &mut [u16], uses: &mut [Use], s: Sides, c: Cursors, position: usize) -> usize
    requires work_room { WorkRoom s work.old c.a c.b c.new }
    requires counted { Counted (plan_up_to s.rows c.a c.new work.old) uses.old }
    requires b_bound { s.start + c.b < s.end }
    requires position_le_item_limit { position ≤ item_limit }
    ensures { Imports s position work.old c work.new uses.new result }
{
    let at = s.start + c.b;
    let k = c.new;
    let e = work[at] as usize;
    let used = uses[e];
    if used.is_paired() {
        return k;
    }
    let row = 2 * (s.rows + k);
    let second = row + 1;
    work[row] = e as u16;
    work[second] = position as u16;
    uses[e] = used.imported_again();
    k + 1
}

// One step of the walk.
pub fn advance(work: &mut [u16], uses: &mut [Use], s: Sides, c: Cursors, act: Action) -> Cursors
    requires work_room { WorkRoom s work.old c.a c.b c.new }
    requires counted { Counted (plan_up_to s.rows c.a c.new work.old) uses.old }
    requires a_lt_rows { c.a < s.rows }
    requires step_in { StepIn s c.b act }
    ensures advances { Advances s act work.old c work.new uses.new result }
    ensures b_bound { c.a + c.b < result.a + result.b }
{
    let i = c.a;
    match act {
        Action::MergeEqual => {
            let at = s.start + c.b;
            let e = work[at] as usize;
            pair_row(work, uses, i, e);
            Cursors {
                a: i + 1,
                b: c.b + 1,
                ..c
            }
        }
        Action::MergeUnequal(m) => {
            let e = m.0;
            pair_row(work, uses, i, e);
            Cursors { a: i + 1, ..c }
        }
        Action::AOnly => Cursors { a: i + 1, ..c },
        Action::BOnly => {
            let new = import_next(work, uses, s, c, i);
            Cursors {
                b: c.b + 1,
                new,
                ..c
            }
        }
        Action::UnmergeableParent => c,
    }
}

// Left-over B at this position. Gives the length of the B-only list.
pub fn import_rest(
    work: &mut [u16],
    uses: &mut [Use],
    s: Sides,
    c: Cursors,
    position: usize,
) -> usize
    requires work_room { WorkRoom s work.old c.a c.b c.new }
    requires counted { Counted (plan_up_to s.rows c.a c.new work.old) uses.old }
    requires a_value { c.a ≡ s.rows }
    requires position_le_item_limit { position ≤ item_limit }
    ensures { Finishes s position work.old c work.new uses.new result }
{
    let a = c.a;
    let n = s.end - s.start;
    let mut new = c.new;
    for b in c.b..n {
        new = import_next(work, uses, s, Cursors { a, b, new }, position);
    }
    new
}

// The plan, or the first child of B that it uses twice.
pub fn used_twice(work: &[u16], uses: &[Use], s: Sides, new: usize) -> Result<Rows, Unplanned>
    requires work_room { WorkRoom s work.now s.rows (s.end - s.start) new }
    requires counted { Counted (plan_in s.rows new work.now) uses.now }
    ensures work_value { planned_is result work.now ≡ or_used_twice (plan_in s.rows new work.now) (first_used_twice (plan_in s.rows new work.now) (second_children s work.now)) }
    ensures by_index { (n : ℕ) → RowsIn n work.now s.rows new → PlanIn n result work.now }
{
    for b in &work[s.start..s.end] {
        let e = *b as usize;
        if uses[e].is_repeated() {
            return Err(Unplanned::UsedTwice(Element(e)));
        }
    }
    Ok(Rows { first: s.rows, new })
}
