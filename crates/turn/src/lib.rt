// One turn of the machine that halves a path in two lent outputs: its items there, and what one test of two neighbours
// comes to. Below the machine that takes turn after turn, so that a wrong turn is refused without its proofs.
#![tactic(auto)]

ghost use Rattle.std.specs.Prelude.{◌≡◌};
ghost use Rattle.refusal.specs.Numbers.{refusal};
ghost use Rattle.turn.specs.Stops.{cause_of};

mod given;
mod items;
mod outputs;
mod turning;

use chain::Prepared;
use geometry::Vec3;
pub use given::GivenPath;
pub use items::{every_set, item_at, joints_in, put_pose, space_in};
use middle::Tolerances;
pub use outputs::Outputs;
use refusal::{Cause, Refusal};
pub use turning::{MOST, axis_at};

// What a division goes by: the chain, made ready, and the tolerances.
#[derive(Clone, Copy)]
pub struct Setting {
    pub p: Prepared,
    pub tol: Tolerances,
}

// The state of a halving in lent outputs: how many items are placed; the index of the first that waits; how many were
// inserted; how many of those that wait are given ones, which stand last; the axis that the last placed joint set
// reaches; and the one that the first waiting given one reaches. That axis is no Option: `given` says whether there is
// one, and it is read only where the first that waits is given, so a None would be tested for and never met.
#[derive(Clone, Copy)]
pub struct Machine {
    pub placed: usize,
    pub waiting: usize,
    pub inserted: u64,
    pub given: usize,
    pub left_axis: Vec3,
    pub end_axis: Vec3,
}

// Why a division ends before its time, with the number inserted: one insertion more is one too many, or has no space.
#[derive(Clone, Copy)]
pub enum Stop {
    TooMany(u64),
    NoSpace(u64),
}

impl Stop {
    ghost use Rattle.turn.specs.Stops as S;

    pub fn cause(self) -> Cause
        ensures { result ≡ S.cause_of self }
    {
        match self {
            Stop::TooMany(_) => Cause::TooManyInsertions,
            Stop::NoSpace(_) => Cause::NoSpace,
        }
    }

    pub fn inserted(self) -> u64
        ensures { result ≡ S.inserted_before self }
    {
        match self {
            Stop::TooMany(n) | Stop::NoSpace(n) => n,
        }
    }
}

// A stop as a refusal: its cause, at no place. How many were inserted is no part of it.
impl From<Stop> for Refusal {
    ghost from_gives = { λ s r. r ≡ refusal (cause_of s) 0 };

    fn from(s: Stop) -> Refusal {
        Refusal::new(s.cause(), 0)
    }
}
