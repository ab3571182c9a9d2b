// Pairing: the walk over the children of both sides of a level.
ghost use Rattle.std.specs.Prelude.{true, [], ◌≡◌, ◌+◌, ◌*◌, ◌<◌, ◌≤◌, length, take};
ghost use Rattle.tables.specs.Limits.{item_limit, version_limit};
ghost use Rattle.tables.specs.Records.{list_of};
ghost use Rattle.tables.specs.SchemaTable.{schema_of};
ghost use Rattle.merge_rules.specs.Pairing.{action_of};
ghost use Rattle.pairing.specs.Lent.{fixed_of, model_in, element_count};
ghost use Rattle.pairing.specs.Actions.{Listed, Acts, Searches};
ghost use Rattle.pairing.specs.Plans.{planned_is, PlanIn, plan_level, checked_plan};
ghost use Rattle.pairing.specs.Walks.{first_children, second_children, next_action, walk_on, MarkRoom, Marked, MarkedIf, WorkRoom, Ranged, Alone};

use crate::action::{Action, cursor_action, search_action};
use crate::children::copy_sides;
use crate::lent::Tables;
use crate::marks::mark_children;
use crate::plan::{
    Cursors, Rows, Sides, Unplanned, Use, advance, import_rest, pair_first, used_twice,
};
use schema_calls::calls::splittable_in;
use tables::elements::element_type;
use tables::limits::ELEMENT_LIMIT;
use tables::model::list_length;
use tables::numbers::{Element, TypeNumber};

// The action of one step, and whether the marks of B's children are now written: a flag, since the slice that holds them is lent anew in each step.
#[derive(Clone, Copy)]
struct Next {
    act: Action,
    marked: bool,
}

// The search for a sibling of a, by the marks.
fn search_marked(tables: &Tables, splittable: bool, work: &[u16], s: Sides, a: Element) -> Action
    requires listed { Listed (element_count tables.now) (second_children s work.now) }
    requires mark_room { MarkRoom s work.now }
    requires marked { Marked (fixed_of tables.now) (model_in tables.now) s work.now }
    requires a_in_bounds { a.0 < element_count tables.now }
    ensures { Searches (element_count tables.now) (fixed_of tables.now) (model_in tables.now) splittable (second_children s work.now) a.0 result }
{
    let start = s.start;
    let end = s.end;
    let n = end - start;
    let definitions = end + n;
    let last = definitions + n;
    search_action(
        tables,
        splittable,
        &work[start..end],
        &work[end..definitions],
        &work[definitions..last],
        a,
    )
}

// The same; writes the marks if they are not written.
fn search_children(
    tables: &Tables,
    splittable: bool,
    work: &mut [u16],
    s: Sides,
    a: Element,
    marked: bool,
) -> Action
    requires listed { Listed (element_count tables.now) (second_children s work.old) }
    requires mark_room { MarkRoom s work.old }
    requires marked_if { MarkedIf marked (fixed_of tables.now) (model_in tables.now) s work.old }
    requires a_in_bounds { a.0 < element_count tables.now }
    ensures searches { Searches (element_count tables.now) (fixed_of tables.now) (model_in tables.now) splittable (second_children s work.old) a.0 result }
    ensures marked { Marked (fixed_of tables.now) (model_in tables.now) s work.new }
    ensures work_unchanged { take s.end work.new ≡ take s.end work.old }
{
    if marked {
        return search_marked(tables, splittable, work, s, a);
    }
    mark_children(tables, work, s);
    search_marked(tables, splittable, work, s, a)
}

// What becomes of the cursor children; behind B's last child, A only.
fn next_action(
    tables: &Tables,
    t: TypeNumber,
    splittable: bool,
    work: &mut [u16],
    s: Sides,
    c: Cursors,
    marked: bool,
) -> Next
    requires t_in_bounds { t.0 < length (schema_of tables.now.schema.now).types }
    requires work_room { WorkRoom s work.old c.a c.b c.new }
    requires ranged { Ranged (element_count tables.now) s work.old c.new }
    requires marked_if { MarkedIf marked (fixed_of tables.now) (model_in tables.now) s work.old }
    requires a_lt_rows { c.a < s.rows }
    ensures acts { let bs = second_children s work.old in
        let act = action_of (fixed_of tables.now) (model_in tables.now) t.0 splittable bs in
        Acts (element_count tables.now) result.act (next_action act (first_children s work.old) bs c.a c.b) }
    ensures marked_if_2 { MarkedIf result.marked (fixed_of tables.now) (model_in tables.now) s work.new }
    ensures work_unchanged { take s.end work.new ≡ take s.end work.old }
{
    let at = s.start + c.b;
    if s.end <= at {
        return Next {
            act: Action::AOnly,
            marked,
        };
    }
    let row = 2 * c.a;
    let a = Element(work[row] as usize);
    let b = Element(work[at] as usize);
    let decision = cursor_action(tables, t, a, b);
    match decision {
        Some(act) => Next { act, marked },
        None => {
            let act = search_children(tables, splittable, work, s, a, marked);
            Next { act, marked: true }
        }
    }
}

// The walk over the children of both sides; left-over B at the position `end`.
fn walk(
    tables: &Tables,
    t: TypeNumber,
    splittable: bool,
    work: &mut [u16],
    s: Sides,
    end: usize,
) -> Result<Rows, Unplanned>
    requires t_in_bounds { t.0 < length (schema_of tables.now.schema.now).types }
    requires work_room { WorkRoom s work.old 0 0 0 }
    requires ranged { Ranged (element_count tables.now) s work.old 0 }
    requires end_le_item_limit { end ≤ item_limit }
    ensures work_after { let bs = second_children s work.old in
        let act = action_of (fixed_of tables.now) (model_in tables.now) t.0 splittable bs in
        planned_is result work.new ≡ checked_plan bs (walk_on act end 0 (first_children s work.old) bs []) }
    ensures plan_in { PlanIn (element_count tables.now) result work.new }
{
    let mut uses = [Use::Unused; ELEMENT_LIMIT];
    let mut c = Cursors { a: 0, b: 0, new: 0 };
    let mut marked = false;
    // No `for`: the action says which cursor moves.
    while c.a < s.rows {
        let next = next_action(tables, t, splittable, work, s, c, marked);
        marked = next.marked;
        let act = next.act;
        if act == Action::UnmergeableParent {
            return Err(Unplanned::Unmergeable);
        }
        c = advance(work, &mut uses, s, c, act);
    }
    let new = import_rest(work, &mut uses, s, c, end);
    used_twice(work, &uses, s, new)
}

// True only where A and B have one child each, and the rule pairs the two.
fn pair_alone(tables: &Tables, t: TypeNumber, work: &[u16], s: Sides) -> bool
    requires t_in_bounds { t.0 < length (schema_of tables.now.schema.now).types }
    requires work_room { WorkRoom s work.now 0 0 0 }
    requires ranged { Ranged (element_count tables.now) s work.now 0 }
    ensures { result ≡ true → Alone (fixed_of tables.now) (model_in tables.now) t.0 s work.now }
{
    if s.rows != 1 {
        return false;
    }
    let at = s.start;
    if s.end - at != 1 {
        return false;
    }
    let a = Element(work[0] as usize);
    let b = Element(work[at] as usize);
    let decision = cursor_action(tables, t, a, b);
    matches!(decision, Some(Action::MergeEqual))
}

// The plan of the level of a and b, in the scratch slice.
pub fn plan_level(
    tables: &Tables,
    v: u64,
    a: Element,
    b: Element,
    work: &mut [u16],
) -> Result<Rows, Unplanned>
    requires a_in_bounds { a.0 < element_count tables.now }
    requires b_in_bounds { b.0 < element_count tables.now }
    requires v_lt_version_limit { v < version_limit }
    requires b_in_bounds_2 { 2 * length (list_of (model_in tables.now) a.0) + 5 * length (list_of (model_in tables.now) b.0) ≤ length work.old }
    ensures work_after { planned_is result work.new ≡ plan_level (fixed_of tables.now) (model_in tables.now) v a.0 b.0 }
    ensures plan_in { PlanIn (element_count tables.now) result work.new }
{
    let s = copy_sides(tables.model, a, b, work);
    if s.end == s.start {
        return Ok(Rows {
            first: s.rows,
            new: 0,
        });
    }
    let t = element_type(tables.elements, a);
    if pair_alone(tables, t, work, s) {
        pair_first(work, s.start);
        return Ok(Rows { first: 1, new: 0 });
    }
    let splittable = splittable_in(tables.schema, t, v);
    let end = list_length(tables.model, a);
    walk(tables, t, splittable, work, s, end)
}
