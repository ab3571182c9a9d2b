// Why a deck is refused, and at which line.
ghost use Rattle.std.specs.Prelude.{◌≡◌};
ghost use Rattle.load.specs.Lines.{refusal_number};

// In the order of their numbers.
#[derive(Clone, Copy, PartialEq, Eq)]
pub enum Refusal {
    WrongSize,
    Form,
    SchemaRule,
    TreeRule,
    Limit,
}

impl Refusal {
    pub fn number(self) -> u64
        ensures { result ≡ refusal_number self }
    {
        self as u64
    }
}

// line: counted from 1; 0 where no line was read. A number and no Option: 0 is what the rules, C's answer and the printed line have there.
#[derive(Clone, Copy, PartialEq, Eq)]
pub struct LoadError {
    pub refusal: Refusal,
    pub line: u64,
}
