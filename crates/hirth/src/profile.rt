// The positioning profile: a chosen solution on its teeth, with its position worked out again, within the limits and
// the tolerance.
ghost use Rattle.std.specs.Prelude.{◌≡◌, true};
ghost use Rattle.hirth.specs.Profile as S;
ghost use Rattle.hirth.specs.ProfileSteps as Steps;
ghost use Rattle.hirth.specs.Promise as Promise;

use crate::snapping::snapped_angles;
use crate::turning::tooth_turn;
use chain::{Joints, Kinematics, Prepared, ToolPose, Turns, demand};
use geometry::Vec3;
use inverse::{Angles, Choice, ReadyChain};
use refusal::{Cause, Refusal};

// As chain's `turns_of`, from the table.
fn tooth_turns(p: Prepared, angles: Angles) -> Turns
    ensures { result ≡ S.tooth_turns p angles }
{
    chain::turns_by(p, angles.a0, angles.a1, tooth_turn)
}

// Whether an angle is surely within the tolerance, by the square of its sine and by its cosine: from a cosine of 15/16
// up it is at most 73.4 degrees times the sine. It may say no of an angle that is within.
#[tactic(auto, unfolding(crate::specs::ProfileSteps::surely_within))]
fn surely_within(square: f64, cosine: f64, tolerance: f64) -> bool
    ensures { result ≡ Steps.surely_within square cosine tolerance }
{
    0.0009765625 <= tolerance
        && tolerance <= 64.0
        && 0.9375 <= cosine
        && 0.0 <= square
        && square <= 1.0
        && square * 5476.0 <= tolerance * tolerance
}

// The same of two axes, with no root of the square and no arctangent.
fn surely_close(axis: Vec3, wanted: Vec3, tolerance: f64) -> bool
    ensures { result ≡ true → S.close axis wanted tolerance ≡ true }
{
    let Some(a) = geometry::unit_direction(axis) else {
        return false;
    };
    let Some(b) = geometry::unit_direction(wanted) else {
        return false;
    };
    let across = geometry::cross(a, b);
    let square = geometry::dot(across, across);
    let cosine = float::clamp_unit(geometry::dot(a, b));
    surely_within(square, cosine, tolerance)
}

fn close(axis: Vec3, wanted: Vec3, tolerance: f64) -> bool
    ensures { result ≡ S.close axis wanted tolerance }
{
    if surely_close(axis, wanted, tolerance) {
        return true;
    }
    geometry::angle_between_deg(axis, wanted) <= tolerance
}

// The limits again, of joints on their teeth.
#[tactic(auto, unfolding(crate::specs::Profile::limited))]
fn limited(k: &Kinematics, j: Joints) -> Result<Joints, Refusal>
    ensures { result ≡ S.limited k.now j }
{
    let within = path::inside(path::bounds_of(k), j);
    demand(within, Cause::ToothMisses, 0)?;
    Ok(j)
}

// The joints on their teeth where the reached axis is within the tolerance and every rotary within its limits, else
// ToothMisses.
#[tactic(auto, unfolding(crate::specs::Profile::held))]
fn held(
    k: &Kinematics,
    wanted: Vec3,
    tolerance: f64,
    axis: Vec3,
    j: Joints,
) -> Result<Joints, Refusal>
    ensures { result ≡ S.held k.now wanted tolerance axis j }
{
    demand(close(axis, wanted, tolerance), Cause::ToothMisses, 0)?;
    limited(k, j)
}

// A chosen solution on its teeth: by the steps of `inverse` for a pair of angles, with the turns of the teeth.
fn toothed(
    ready: &ReadyChain<'_>,
    pose: ToolPose,
    tool_length: f64,
    tolerance: f64,
    j: Joints,
) -> Result<Joints, Refusal>
    ensures { result ≡ S.toothed ready.now.k.now pose tool_length tolerance j }
{
    let p = ready.p;
    let angles = snapped_angles(j);
    let turns = tooth_turns(p, angles);
    let reached = inverse::pose_from(p, turns, tool_length);
    let placed = inverse::joints_from(p, turns, angles, pose.tip, reached.tip);
    held(ready.k, pose.axis, tolerance, reached.axis, placed)
}

// One of the joint sets that reach the pose, on its teeth, or the first refusal: Tolerance, then those of `choose`,
// then ToothMisses.
pub fn choose_tooth(
    k: &Kinematics,
    pose: ToolPose,
    tool_length: f64,
    choice: Choice,
    tolerance: f64,
) -> Result<Joints, Refusal>
    ensures name { result ≡ S.choose_tooth k.now pose tool_length choice tolerance }
    ensures promised { Promise.Promised k.now pose tool_length choice tolerance result }
{
    demand(divide::tolerance_good(tolerance), Cause::Tolerance, 0)?;
    let ready = ReadyChain::of(k);
    let j = inverse::choose_ready(&ready, pose, tool_length, choice)?;
    toothed(&ready, pose, tool_length, tolerance, j)
}
