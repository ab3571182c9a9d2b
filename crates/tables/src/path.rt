// Paths: up to four parts, each as part + 1; 0 and what stands behind it is no part.

ghost use Rattle.std.specs.Prelude.{◌≡◌, get_or};
ghost use mathlib.Core.List.{drop_last};
ghost use Rattle.tables.specs.Paths.{path_order, same_path, shared_beginning, cells_of, parts_of, order_of, shares_part};

use crate::limits::PATH_LIMIT;
use std::cmp::Ordering;

// Four fields, not an array: the contracts of all crates name them. No derive of equality or order: it would compare what stands behind a 0.
#[derive(Clone, Copy)]
pub struct Path(pub u64, pub u64, pub u64, pub u64);

impl Path {
    // Part i as it is held, 0 where there is none.
    pub fn part(self, i: usize) -> u64
        ensures { result ≡ get_or (cells_of self) i 0 }
    {
        match i {
            0 => self.0,
            1 => self.1,
            2 => self.2,
            3 => self.3,
            _ => 0,
        }
    }

    // Part by part.
    pub fn order(self, q: Path) -> Ordering
        ensures { result ≡ order_of (path_order (parts_of self) (parts_of q)) }
    {
        for i in 0..PATH_LIMIT {
            let x = self.part(i);
            let found = x.cmp(&q.part(i));
            if found.is_ne() || x == 0 {
                return found;
            }
        }
        Ordering::Equal
    }

    pub fn same(self, q: Path) -> bool
        ensures { result ≡ same_path (parts_of self) (parts_of q) }
    {
        self.order(q).is_eq()
    }

    // The longest beginning that both share, last parts not counted.
    pub fn shared(self, q: Path) -> Path
        ensures { parts_of result ≡ shared_beginning (drop_last (parts_of self)) (drop_last (parts_of q)) }
    {
        let a = self.0;
        let b = self.1;
        let c = self.2;
        if !shares(a, b, q.0, q.1) {
            return Path(0, 0, 0, 0);
        }
        if !shares(b, c, q.1, q.2) {
            return Path(a, 0, 0, 0);
        }
        if !shares(c, self.3, q.2, q.3) {
            return Path(a, b, 0, 0);
        }
        Path(a, b, c, 0)
    }
}

// Two paths share a part, and each has one behind it.
fn shares(x: u64, xn: u64, y: u64, yn: u64) -> bool
    ensures { result ≡ shares_part x xn y yn }
{
    x != 0 && xn != 0 && yn != 0 && x == y
}
