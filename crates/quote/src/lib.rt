// A quotation: how many poses a division inserts, how many it gives and how often its tests evaluate `forward`, with no
// path written. What waits are midpoints, and their joint sets stand in lent scratch; given poses wait where they are.
#![tactic(auto)]

ghost use Rattle.std.specs.Prelude.{◌≡◌};
ghost use Rattle.quote.specs.declared.QuoteError.TheVariants.{Refused, Stopped};
ghost use Rattle.quote.specs.Refused.{refusal_of};

mod checking;
mod entries;
mod stepping;

pub use checking::scratch_whole;
pub use entries::quote_path;
use geometry::Vec3;
use middle::Item;
use refusal::Refusal;
use turn::Stop;

// How many poses are inserted, how many the output holds, and how many forward evaluations the tests and insertions
// count.
#[derive(Clone, Copy, Default)]
pub struct Figures {
    pub inserted: u64,
    pub poses: u64,
    pub evaluations: u64,
}

// Why a quotation has no figures: a refusal of the checks, or why it ended before its time: too little scratch (28), or
// an insertion that is one too many (27, with the number inserted).
#[derive(Clone, Copy)]
pub enum QuoteError {
    Refused(Refusal),
    Stopped(Stop),
}

impl From<Refusal> for QuoteError {
    ghost from_gives = { λ r e. e ≡ Refused r };

    fn from(r: Refusal) -> QuoteError {
        QuoteError::Refused(r)
    }
}

impl From<Stop> for QuoteError {
    ghost from_gives = { λ s e. e ≡ Stopped s };

    fn from(s: Stop) -> QuoteError {
        QuoteError::Stopped(s)
    }
}

// The refusal that C is told. It has no place where the quotation ended before its time.
impl From<QuoteError> for Refusal {
    ghost from_gives = { λ e r. r ≡ refusal_of e };

    fn from(e: QuoteError) -> Refusal {
        match e {
            QuoteError::Refused(refusal) => refusal,
            QuoteError::Stopped(stop) => stop.into(),
        }
    }
}

// Where a quotation stands: the last item of those that stay; the first joint set that waits in the scratch, which is
// filled from 10,000 downwards; the next given item; and how many were inserted, and evaluated.
#[derive(Clone, Copy)]
pub struct Place {
    pub left: Item,
    pub top: usize,
    pub next: usize,
    pub inserted: u64,
    pub evaluations: u64,
}

// The same with what was evaluated already: the axis that the left joint set reaches; the first item that waits, and
// the axis that its joint set reaches; and the axis that the next given joint set reaches.
#[derive(Clone, Copy)]
pub struct Quoter {
    pub place: Place,
    pub left_axis: Vec3,
    pub right: Item,
    pub right_axis: Vec3,
    pub end_axis: Vec3,
}
