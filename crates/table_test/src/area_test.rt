// The test of an area of a table: rows of one width, each of which passes, and zeros behind them.

ghost use Rattle.std.specs.Prelude.{◌≡◌, ◌*◌, length};
ghost use Rattle.table_test.specs.AreaTest.{area_width, area_limit, row_passes, area_passes};

use crate::{elements_test, log_test, scan, schema_test};
use tables::elements::{ELEMENT_WIDTH, TEXT_WIDTH, TREE_WIDTH};
use tables::limits::{
    ELEMENT_LIMIT, FILE_LIMIT, GROUP_LIMIT, ITEM_LIMIT, LOG_LIMIT, ROW_LIMIT, TYPE_LIMIT,
};
use tables::log::ENTRY_WIDTH;
use tables::schema::{FILE_WIDTH, GROUP_WIDTH, ROW_WIDTH, TYPE_WIDTH};

// What the rows of an area are, with the count that their numbers are held to: of types, the deck's bytes, or elements.
#[derive(Clone, Copy)]
pub enum Area {
    Types,
    Groups,
    SubElements,
    Files,
    Elements(u64),
    Texts(u64),
    Trees(u64),
    Entries(u64),
}

// By match and not by a closure for each area: the areas are these eight, and each match says what the definitions of the test say.
impl Area {
    fn width(self) -> usize
        ensures { result ≡ area_width self }
    {
        match self {
            Area::Types => TYPE_WIDTH,
            Area::Groups => GROUP_WIDTH,
            Area::SubElements => ROW_WIDTH,
            Area::Files => FILE_WIDTH,
            Area::Elements(_) => ELEMENT_WIDTH,
            Area::Texts(_) => TEXT_WIDTH,
            Area::Trees(_) => TREE_WIDTH,
            Area::Entries(_) => ENTRY_WIDTH,
        }
    }

    fn limit(self) -> u64
        ensures { result ≡ area_limit self }
    {
        match self {
            Area::Types => TYPE_LIMIT as u64,
            Area::Groups => GROUP_LIMIT as u64,
            Area::SubElements => ROW_LIMIT as u64,
            Area::Files => FILE_LIMIT,
            Area::Elements(_) => ELEMENT_LIMIT as u64,
            Area::Texts(_) => ITEM_LIMIT as u64,
            Area::Trees(_) => FILE_LIMIT,
            Area::Entries(_) => LOG_LIMIT as u64,
        }
    }

    fn row_passes(self, row: &[u64]) -> bool
        requires { length row.now ≡ area_width self }
        ensures { result ≡ row_passes self row.now }
    {
        match self {
            Area::Types => schema_test::type_passes(row),
            Area::Groups => schema_test::group_passes(row),
            Area::SubElements => schema_test::sub_element_passes(row),
            Area::Files => schema_test::file_passes(row),
            Area::Elements(types) => elements_test::element_passes(row, types),
            Area::Texts(size) => elements_test::text_passes(row, size),
            Area::Trees(n) => elements_test::tree_passes(row, n),
            Area::Entries(n) => log_test::entry_passes(row, n),
        }
    }

    pub fn passes(self, area: &[u64], count: u64) -> bool
        requires { length area.now ≡ area_limit self * area_width self }
        ensures { result ≡ area_passes self count area.now }
    {
        if self.limit() < count {
            return false;
        }
        let w = self.width();
        let n = count as usize;

        // By places: by chunks_exact a row takes up to twice as long.
        for i in 0..n {
            let a = i * w;
            let b = a + w;
            if !self.row_passes(&area[a..b]) {
                return false;
            }
        }
        let end = n * w;
        scan::all_zero(&area[end..])
    }
}
