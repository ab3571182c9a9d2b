// Children of a content list, texts skipped, copied into a scratch slice.
ghost use Rattle.std.specs.Prelude.{◌≡◌, ◌+◌, ◌*◌, ◌<◌, ◌≤◌, length};
ghost use Rattle.tables.specs.Records.{list_of};
ghost use Rattle.tables.specs.ModelTable.{count_of, model_of, GoodModel};
ghost use Rattle.merge_rules.specs.Pairing.{children_of};
ghost use Rattle.pairing.specs.Plans.{CopiedRows};
ghost use Rattle.pairing.specs.Walks.{Laid};

use crate::plan::Sides;
use tables::model::{Item, item_at, list_length};
use tables::numbers::Element;

// A row of so many cells for each of the element's children: its number, and 0 in the cells behind it.
pub fn copy_rows<const WIDTH: usize>(model: &[u64], e: Element, work: &mut [u16]) -> usize
    requires good_model { GoodModel model.now }
    requires e_bound { e.0 < count_of (model_of model.now) }
    requires width_positive { 0 < WIDTH }
    requires e_in_bounds { WIDTH * length (list_of (model_of model.now) e.0) ≤ length work.old }
    ensures { CopiedRows WIDTH work.new result (children_of (model_of model.now) e.0) }
{
    let n = list_length(model, e);
    // Counts the children, while the loop counts items.
    let mut k: usize = 0;
    for i in 0..n {
        let Item::Child(x) = item_at(model, e, i) else {
            continue;
        };
        let at = WIDTH * k;
        work[at] = x.0 as u16;
        work[at + 1..at + WIDTH].fill(0);
        k += 1;
    }
    k
}

// The children of a in rows, and the numbers of b's children behind the room for a row of each of b's items.
pub fn copy_sides(model: &[u64], a: Element, b: Element, work: &mut [u16]) -> Sides
    requires good_model { GoodModel model.now }
    requires a_bound { a.0 < count_of (model_of model.now) }
    requires b_bound { b.0 < count_of (model_of model.now) }
    requires b_in_bounds { 2 * length (list_of (model_of model.now) a.0) + 5 * length (list_of (model_of model.now) b.0) ≤ length work.old }
    ensures { Laid (model_of model.now) a.0 b.0 result work.new }
{
    let rows = copy_rows::<2>(model, a, work);
    let start = 2 * (rows + list_length(model, b));
    let n = copy_rows::<1>(model, b, &mut work[start..]);
    Sides {
        rows,
        start,
        end: start + n,
    }
}
