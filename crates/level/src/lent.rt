// The deck and the tables that no merge changes.
ghost use Rattle.std.proofs.Props.{props};
ghost use Rattle.table_test.specs.Fits.{GoodFixed};
ghost use Rattle.pairing.specs.Props.{facts};

// Each passed its test.
#[derive(Clone, Copy)]
pub struct Fixed<'a> {
    pub deck: &'a [u8],
    pub schema: &'a [u64],
    pub elements: &'a [u64],
    pub ghost good_fixed: { GoodFixed deck.now schema.now elements.now } by { Prim.hlevel (facts, props) },
}
