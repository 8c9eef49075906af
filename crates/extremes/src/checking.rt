// The checks of the three calls, before anything is changed.
ghost use Rattle.std.specs.Prelude.{◌≡◌, length};
ghost use Rattle.lists.specs.Search.{all};
ghost use Rattle.chain.specs.Check.{joints_finite, joints_within};
ghost use Rattle.extremes.specs.Summary.{sets_in};
ghost use Rattle.extremes.specs.Checking as S;

use crate::summing::group_count;
use chain::demand;
use refusal::{Cause, Refusal};

// Whole joint sets, and ten numbers for each group.
#[tactic(auto, unfolding(crate::specs::Checking::lengths_good))]
fn lengths_good(joints: usize, summary: usize) -> bool
    ensures { result ≡ S.lengths_good joints summary }
{
    joints % 5 == 0 && summary == group_count(joints / 5) * 10
}

#[tactic(auto, unfolding(crate::specs::Checking::replace_good))]
fn replace_good(joints: usize, summary: usize, index: usize, fresh: usize) -> bool
    ensures { result ≡ S.replace_good joints summary index fresh }
{
    lengths_good(joints, summary) && fresh == 5 && index < joints / 5
}

#[tactic(auto, unfolding(crate::specs::Checking::ask_good))]
fn ask_good(joints: usize, summary: usize, rotary: usize) -> bool
    ensures { result ≡ S.ask_good joints summary rotary }
{
    lengths_good(joints, summary) && rotary < 2
}

// Here and below a closure that only hands its argument on. Tried by the name, `every_set(joints, joints_finite)`: the
// proof has no contract for it, since what crate chain exports has no file of that function's.
#[tactic(auto, unfolding(crate::specs::Summary::sets_in))]
pub fn all_finite(joints: &[f64]) -> bool
    ensures { result ≡ all joints_finite (sets_in joints.now) }
{
    turn::every_set(joints, |j| chain::joints_finite(j))
}

#[tactic(auto, unfolding(crate::specs::Summary::sets_in))]
pub fn all_within(joints: &[f64]) -> bool
    ensures { result ≡ all joints_within (sets_in joints.now) }
{
    turn::every_set(joints, |j| chain::joints_within(j))
}

#[tactic(auto, unfolding(crate::specs::Checking::build_check))]
pub fn build_check(joints: &[f64], summary: usize) -> Result<(), Refusal>
    ensures { result ≡ S.build_check joints.now summary }
{
    demand(lengths_good(joints.len(), summary), Cause::LengthsDiffer, 0)?;
    demand(all_finite(joints), Cause::NotFinite, 0)?;
    demand(all_within(joints), Cause::TooLarge, 0)
}

// The new joint set is read only where it has five numbers.
#[tactic(auto, unfolding(crate::specs::Checking::replace_check, turn::specs::Items::joints_in))]
pub fn replace_check(
    joints: usize,
    summary: usize,
    index: usize,
    fresh: &[f64],
) -> Result<(), Refusal>
    ensures { result ≡ S.replace_check joints summary index fresh.now }
{
    demand(
        replace_good(joints, summary, index, fresh.len()),
        Cause::LengthsDiffer,
        0,
    )?;
    let j = turn::joints_in(fresh, 0);
    demand(chain::joints_finite(j), Cause::NotFinite, 0)?;
    demand(chain::joints_within(j), Cause::TooLarge, 0)
}

#[tactic(auto, unfolding(crate::specs::Checking::ask_check))]
pub fn ask_check(joints: usize, summary: usize, rotary: usize, angle: f64) -> Result<(), Refusal>
    ensures { result ≡ S.ask_check joints summary rotary angle }
{
    demand(ask_good(joints, summary, rotary), Cause::LengthsDiffer, 0)?;
    demand(float::finite(angle), Cause::NotFinite, 0)?;
    demand(chain::within(angle, 36000.0), Cause::TooLarge, 0)
}
