// The deck and the tables that the pairing of a level reads.
ghost use Rattle.std.proofs.Props.{props};
ghost use Rattle.table_test.specs.Fits.{GoodFixed, ModelOver};
ghost use Rattle.pairing.specs.Props.{facts};

// Each passed its test, the model beside the elements.
#[derive(Clone, Copy)]
pub struct Tables<'a> {
    pub deck: &'a [u8],
    pub schema: &'a [u64],
    pub elements: &'a [u64],
    pub model: &'a [u64],
    pub ghost good_fixed: { GoodFixed deck.now schema.now elements.now } by { Prim.hlevel (facts, props) },
    pub ghost model_over: { ModelOver elements.now model.now } by { Prim.hlevel (facts, props) },
}
