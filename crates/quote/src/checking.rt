// The checks of a quotation: whole records in both scratches, then those of a division.
ghost use Rattle.std.specs.Prelude.{◌≡◌};
ghost use Rattle.quote.specs.Quotation as S;

use chain::{Kinematics, demand};
use middle::Tolerances;
use refusal::{Cause, Refusal};

#[tactic(auto, unfolding(crate::specs::Quotation::scratch_whole))]
pub fn scratch_whole(room_joints: usize, room_tips: usize) -> bool
    ensures { result ≡ S.scratch_whole room_joints room_tips }
{
    room_joints % 5 == 0 && room_tips % 3 == 0
}

// Chain and tolerances apart, and the rooms as numbers, as `divide::division_check` takes them.
#[tactic(auto, unfolding(crate::specs::Quotation::quote_check))]
pub fn quote_check(
    k: &Kinematics,
    tol: Tolerances,
    given: &[f64],
    solved: &[f64],
    room_joints: usize,
    room_tips: usize,
) -> Result<(), Refusal>
    ensures { result ≡ S.quote_check k.now tol given.now solved.now room_joints room_tips }
{
    demand(
        scratch_whole(room_joints, room_tips),
        Cause::LengthsDiffer,
        0,
    )?;
    divide::division_check(k, tol, given, solved, 0, 0)
}
