// The inverse map: from a tool pose to every joint set that reaches it, angles first, then the gauge position for each
// pair of them.
ghost use Rattle.std.specs.Prelude.{◌+◌, ◌≤◌, ◌<◌, ◌≡◌, IfOk, [], length};
ghost use Rattle.inverse.specs.Inverse as S;

use crate::ordering::insert;
use crate::orientation::orientation_angles;
use crate::wraps::{expand_wraps, second_travel};
use crate::{Angles, PairList, RawPair, ReadyChain, SolutionList};
use arrayvec::ArrayVec;
use chain::{Joints, Kinematics, Prepared, ToolPose, Turns, demand, within};
use geometry::Vec3;
use refusal::{Cause, Refusal};

// The pose at position zero, by the turns of the rotaries. `p` and `turns` are no struct: this and `joints_from` hand
// both on to crate chain, which takes them apart, as `chain::forward_core(*self.p, self.turns, ..)`.
#[tactic(auto, unfolding(crate::specs::Inverse::pose_from))]
pub fn pose_from(p: Prepared, turns: Turns, tool_length: f64) -> ToolPose
    ensures { result ≡ S.pose_from p turns tool_length }
{
    chain::forward_core(p, turns, Vec3::default(), tool_length)
}

// More than 1e-9 off. A square up to 2^-60 needs no root: its root is at most 2^-30, below 1e-9.
pub fn misses(axis: Vec3, target: Vec3) -> bool
    ensures { result ≡ S.misses axis target }
{
    let gap = axis - target;
    let square = geometry::dot(gap, gap);
    if square <= 8.673617379884035e-19 {
        return false;
    }
    1e-9 < root::root(square)
}

// The angles with the position that puts the tip from `tip0` on `tip`. `turns` are those of the rotaries at these
// angles.
#[tactic(auto, unfolding(crate::specs::Inverse::joints_from))]
pub fn joints_from(p: Prepared, turns: Turns, angles: Angles, tip: Vec3, tip0: Vec3) -> Joints
    ensures { result ≡ S.joints_from p turns angles tip tip0 }
{
    let forth = chain::forth_from(p, turns);
    let xyz = chain::position(p, forth, tip, tip0);
    Joints {
        xyz,
        a0: angles.a0,
        a1: angles.a1,
    }
}

// The joints of a pair of angles, where they put the spindle on the target axis. The target and the tip are two and no
// `ToolPose`: crate path would make one at each of its calls, `ToolPose { axis: aim.target, tip: aim.tip }`. A guard
// and no `then`: `(!misses(..)).then(|| joints_from(p, turns, ..))` is the same test turned round.
pub fn reached_at(
    p: Prepared,
    target: Vec3,
    tip: Vec3,
    tool_length: f64,
    angles: Angles,
) -> Option<Joints>
    ensures { result ≡ S.reached_at p target tip tool_length angles }
{
    let turns = chain::turns_of(p, angles.a0, angles.a1);
    let pose0 = pose_from(p, turns, tool_length);
    if misses(pose0.axis, target) {
        return None;
    }
    Some(joints_from(p, turns, angles, tip, pose0.tip))
}

// Each pair in turn, into a list that is empty: by value a list of 50 would be copied from function to function. The
// pose's axis is a unit vector, here and below.
fn all_solutions(
    p: Prepared,
    pose: ToolPose,
    tool_length: f64,
    pairs: &PairList,
    solutions: &mut SolutionList,
)
    requires { solutions.old.items ≡ [] }
    ensures list { solutions.new.items ≡ S.solutions p pose.axis pose.tip tool_length pairs.now.items }
    ensures count { length solutions.new.items ≤ 50 }
{
    for angles in pairs.iter() {
        if let Some(j) = reached_at(p, pose.axis, pose.tip, tool_length, *angles) {
            insert(solutions, j);
        }
    }
}

#[tactic(auto, unfolding(crate::specs::Inverse::positions_finite))]
fn positions_finite(solutions: &[Joints]) -> bool
    ensures { result ≡ S.positions_finite solutions.now }
{
    solutions.iter().all(|j| geometry::all_finite(j.xyz))
}

#[tactic(auto, unfolding(crate::specs::Inverse::some_raw))]
fn some_raw(raw: RawPair) -> bool
    ensures { result ≡ S.some_raw raw }
{
    raw.first.is_some() || raw.second.is_some()
}

// Nothing reached, nothing within the limits, a position that overflows, or nothing left.
#[tactic(auto, unfolding(crate::specs::Inverse::solved_check))]
fn solved_check(raw: RawPair, pairs: &[Angles], solutions: &[Joints]) -> Result<(), Refusal>
    ensures { result ≡ S.solved_check raw pairs.now solutions.now }
{
    demand(some_raw(raw), Cause::NotReachable, 0)?;
    demand(!pairs.is_empty(), Cause::OutsideLimits, 0)?;
    demand(positions_finite(solutions), Cause::NotFinite, 0)?;
    demand(!solutions.is_empty(), Cause::NotReachable, 0)
}

// The answers of a checked chain, into a list that is empty.
#[tactic(auto, unfolding(crate::specs::Inverse::solved, crate::specs::Inverse::raw_angles, crate::specs::Inverse::wrapped))]
fn solved(
    ready: &ReadyChain<'_>,
    pose: ToolPose,
    tool_length: f64,
    hint: Angles,
    solutions: &mut SolutionList,
) -> Result<(), Refusal>
    requires { solutions.old.items ≡ [] }
    ensures value { S.answered result solutions.new ≡ S.solved ready.now.k.now pose.axis pose.tip tool_length hint }
    ensures count { length solutions.new.items ≤ 50 }
{
    let k = ready.k;
    let raw = orientation_angles(ready.p, pose.axis, hint);
    let mut pairs = ArrayVec::new();
    expand_wraps(k.first.limits, second_travel(k), raw, &mut pairs);
    all_solutions(ready.p, pose, tool_length, &pairs, solutions);
    solved_check(raw, &pairs, solutions)
}

#[tactic(auto, unfolding(crate::specs::Inverse::hint_finite))]
fn hint_finite(hint: Angles) -> bool
    ensures { result ≡ S.hint_finite hint }
{
    float::finite(hint.a0) && float::finite(hint.a1)
}

// Neither is past 36,000 degrees.
pub fn angles_within(angles: Angles) -> bool
    ensures { result ≡ S.hint_within angles }
{
    within(angles.a0, 36000.0) && within(angles.a1, 36000.0)
}

#[tactic(auto, unfolding(crate::specs::Inverse::inverse_sizes))]
fn inverse_sizes(k: &Kinematics, tip: Vec3, tool_length: f64, hint: Angles) -> bool
    ensures { result ≡ S.inverse_sizes k.now tip tool_length hint }
{
    within(tool_length, 100000.0)
        && chain::all_within(tip, 100000.0)
        && angles_within(hint)
        && chain::chain_within(k)
}

#[tactic(auto, unfolding(crate::specs::Inverse::inverse_check))]
fn inverse_check(
    k: &Kinematics,
    pose: ToolPose,
    tool_length: f64,
    hint: Angles,
) -> Result<(), Refusal>
    ensures { result ≡ S.inverse_check k.now pose tool_length hint }
{
    demand(chain::length_good(tool_length), Cause::ToolLength, 0)?;
    demand(chain::has_direction(pose.axis), Cause::ToolAxisZero, 0)?;
    chain::chain_check(k)?;
    demand(geometry::all_finite(pose.tip), Cause::NotFinite, 0)?;
    demand(hint_finite(hint), Cause::NotFinite, 0)?;
    demand(
        inverse_sizes(k, pose.tip, tool_length, hint),
        Cause::TooLarge,
        0,
    )
}

// `inverse` of a chain that the caller has prepared, into a list that is empty. What the list holds beside a refusal is
// not said.
#[tactic(auto, unfolding(crate::specs::Inverse::inverse))]
pub fn inverse_ready(
    ready: &ReadyChain<'_>,
    pose: ToolPose,
    tool_length: f64,
    hint: Angles,
    solutions: &mut SolutionList,
) -> Result<(), Refusal>
    requires { solutions.old.items ≡ [] }
    ensures value { S.answered result solutions.new ≡ S.inverse ready.now.k.now pose tool_length hint }
    ensures count { length solutions.new.items ≤ 50 }
{
    inverse_check(ready.k, pose, tool_length, hint)?;
    let axis = geometry::unit_direction(pose.axis).ok_or(Refusal::new(Cause::ToolAxisZero, 0))?;
    solved(
        ready,
        ToolPose { axis, ..pose },
        tool_length,
        hint,
        solutions,
    )
}

// Every joint set that reaches the pose, in order, or the first refusal. The four parameters are C's, as those of
// `choose`: the caller has them apart, and `inverse(Asked { k, pose, tool_length, hint })` would be no shorter.
pub fn inverse(
    k: &Kinematics,
    pose: ToolPose,
    tool_length: f64,
    hint: Angles,
) -> Result<SolutionList, Refusal>
    ensures value { result ≡ S.inverse k.now pose tool_length hint }
    ensures count { IfOk result (λ s. length s.items ≤ 50) }
{
    let mut solutions = ArrayVec::new();
    inverse_ready(&ReadyChain::of(k), pose, tool_length, hint, &mut solutions)?;
    Ok(solutions)
}
