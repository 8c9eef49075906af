// The two calls that divide: poses put between the given ones until two tolerances hold at the middle of every two
// neighbours (subdivide_path of the Rust), and the same of poses that are solved first. This crate has their checks,
// and what the price list states of their answers; what they hand the checked path to is crate machine.
#![tactic(auto)]

ghost use Rattle.std.specs.Prelude.{◌≡◌};
ghost use Rattle.divide.specs.declared.DivisionError.TheVariants.{Refused, Stopped};
ghost use Rattle.divide.specs.Refused.{refusal_of};

mod both;
mod checking;
mod subdividing;

pub use both::{solve_and_divide, three_whole};
pub use checking::{division_check, four_whole, numbers_finite, tips_within, tolerance_good};
use refusal::Refusal;
pub use subdividing::subdivide_path;
use turn::Stop;

// Why a call that divides gives no path: a refusal before the first test, one at a pose that was to be solved, or why
// the division ended before its time.
#[derive(Clone, Copy)]
pub enum DivisionError {
    Refused(Refusal),
    AtPose(Refusal),
    Stopped(Stop),
}

impl From<Refusal> for DivisionError {
    ghost from_gives = { λ r e. e ≡ Refused r };

    fn from(r: Refusal) -> DivisionError {
        DivisionError::Refused(r)
    }
}

impl From<Stop> for DivisionError {
    ghost from_gives = { λ s e. e ≡ Stopped s };

    fn from(s: Stop) -> DivisionError {
        DivisionError::Stopped(s)
    }
}

// The refusal that C is told. Of a division that stopped it is the cause alone.
impl From<DivisionError> for Refusal {
    ghost from_gives = { λ e r. r ≡ refusal_of e };

    fn from(e: DivisionError) -> Refusal {
        match e {
            DivisionError::Refused(refusal) | DivisionError::AtPose(refusal) => refusal,
            DivisionError::Stopped(stop) => stop.into(),
        }
    }
}
