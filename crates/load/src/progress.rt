// What is known of the lines so far, beside the tables.
ghost use Rattle.std.specs.Prelude.{◌≡◌, ◌≤◌, ◌<◌, IfOk, IfErr};
ghost use Rattle.load.specs.declared.refusals.Refusal.TheVariants.{Form};
ghost use Rattle.load.specs.Lines.{kind_number};

use crate::refusals::Refusal;
use tables::limits::DEPTH_LIMIT;

// The largest number of open elements: one of each depth.
pub const OPEN_LIMIT: usize = DEPTH_LIMIT as usize + 1;

// The kinds of lines, in the order in which they come; E and C lines stand among those of M and B.
#[derive(Clone, Copy, PartialEq, Eq, PartialOrd, Ord)]
pub enum Kind {
    T,
    G,
    S,
    F,
    M,
    B,
}

// seen: there is an M line; due: the latest M or B has no root yet; depth: how many elements are open; above: the open element of each depth.
// Two flags and no enum of states, as the rules have them: each may be set without the other. A count beside an array, since there is no heap.
#[derive(Clone, Copy)]
pub struct Progress {
    pub latest: Kind,
    pub seen: bool,
    pub due: bool,
    pub depth: usize,
    pub above: [usize; OPEN_LIMIT],
}

// After a line of this kind; refused where a line of a later kind stands before it.
pub fn in_order(p: Progress, kind: Kind) -> Result<Progress, Refusal>
    ensures taken { IfOk result (λ q. (kind_number p.latest ≤ kind_number kind)
        × (q ≡ record { latest = kind; seen = p.seen; due = p.due; depth = p.depth; above = p.above })) }
    ensures refused { IfErr result (λ r. (kind_number kind < kind_number p.latest) × (r ≡ Form)) }
{
    if kind < p.latest {
        return Err(Refusal::Form);
    }
    Ok(Progress { latest: kind, ..p })
}
