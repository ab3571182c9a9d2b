// Refusals of merge, range and rollback, a refusal's number, element and name, and what a step of a merge answers.
ghost use Rattle.std.proofs.Math.Option.{none, some};
ghost use Rattle.std.specs.Prelude.{◌≡◌};
ghost use Rattle.merge_log.specs.Answers.{refusal_is};
ghost use Rattle.merge_log.specs.Refusals.{refusal_fields_is};
ghost use Rattle.merge_rules.specs.Refusals.{refusal_fields};

use tables::numbers::{Element, Name};

#[derive(Clone, Copy, PartialEq, Eq)]
pub enum Refusal {
    NotWaiting,
    Unmergeable(Element),
    NotInVersion(Element, Name),
    UsedTwice(Element),
    LogFull,
    ContentFull,
    NoSuchElement,
    CharactersParent(Element),
    NoPlace(Element),
    NoMark,
}

// Why a step is not done; a conflict has the element whose list it arose in.
#[derive(Clone, Copy, PartialEq, Eq)]
pub enum Halt {
    Conflict(Element),
    Refused(Refusal),
}

impl From<Refusal> for Halt {
    ghost use Rattle.std.specs.Prelude.{◌≡◌};
    ghost use Rattle.merge_log.specs.declared.refusals.Halt.TheVariants.{Refused};

    ghost from_gives = { λ r h. h ≡ Refused r };

    fn from(r: Refusal) -> Halt {
        Halt::Refused(r)
    }
}

#[derive(Clone, Copy)]
pub struct RefusalFields {
    pub number: u64,
    pub element: Option<u64>,
    pub name: Option<u64>,
}

fn alone(number: u64) -> RefusalFields
    ensures { refusal_fields_is result ≡ record { number = number; element = none; name = none } }
{
    RefusalFields {
        number,
        element: None,
        name: None,
    }
}

fn with_element(number: u64, e: Element) -> RefusalFields
    ensures { refusal_fields_is result ≡ record { number = number; element = some e.0; name = none } }
{
    RefusalFields {
        number,
        element: Some(e.0 as u64),
        name: None,
    }
}

#[tactic(auto, unfolding(merge_rules::specs::Refusals::refusal_fields))]
pub fn refusal_fields(x: Refusal) -> RefusalFields
    ensures { refusal_fields_is result ≡ refusal_fields (refusal_is x) }
{
    match x {
        Refusal::NotWaiting => alone(5),
        Refusal::Unmergeable(e) => with_element(6, e),
        Refusal::NotInVersion(e, n) => RefusalFields {
            number: 7,
            element: Some(e.0 as u64),
            name: Some(n.0),
        },
        Refusal::UsedTwice(e) => with_element(8, e),
        Refusal::LogFull => alone(9),
        Refusal::ContentFull => alone(10),
        Refusal::NoSuchElement => alone(11),
        Refusal::CharactersParent(e) => with_element(12, e),
        Refusal::NoPlace(e) => with_element(13, e),
        Refusal::NoMark => alone(14),
    }
}
