// Tests of every cell of a part of a table. No way out at the first cell that fails: so the compiler takes several cells at a time.

ghost use Rattle.std.specs.Prelude.{◌≡◌, eqb};
ghost use Rattle.tables.specs.Lists.{all_of};
ghost use Rattle.table_test.specs.ModelTest.{is_zero, at_most};

// Cells of a block.
const BLOCK: usize = 16;

// The bits of all cells.
fn bits_of(s: &[u64]) -> u64
    ensures { eqb result 0 ≡ all_of is_zero s.now }
{
    let mut any = 0;
    for x in s {
        any = any | *x;
    }
    any
}

// Block by block, as long as there is a whole one.
pub fn all_zero(s: &[u64]) -> bool
    ensures { result ≡ all_of is_zero s.now }
{
    let blocks = s.chunks_exact(BLOCK);
    let rest = blocks.remainder();
    let mut any = 0;
    for block in blocks {
        any = any | bits_of(block);
    }
    (any | bits_of(rest)) == 0
}

pub fn all_at_most(s: &[u64], n: u64) -> bool
    ensures { result ≡ all_of (at_most n) s.now }
{
    let mut all = true;
    for x in s {
        all = all & (*x <= n);
    }
    all
}
