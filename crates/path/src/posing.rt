// One pose of a path: its own checks, the cone or the exact solution, and the size of the angles. Which pose it is, is
// said here, once for every refusal.
ghost use Rattle.std.specs.Prelude.{◌≡◌, true};
ghost use Rattle.path.specs.Posing as S;
ghost use Rattle.path.specs.Closest.{bounded};
ghost use Rattle.path.specs.Locking.{cone_solution};
ghost use Rattle.path.specs.Exact.{exact_pose};

use crate::exact::exact_pose;
use crate::locking::{cone_solution, refused};
use crate::singular::{in_singular_cone, singular_frame};
use crate::{Aim, Bound, Bounds, CheckedSetup, Setup, SingularFrame};
use chain::{Joints, Kinematics, RotaryJoint, ToolPose, demand};
use geometry::Vec3;
use inverse::Angles;
use refusal::{Cause, Refusal};

impl From<RotaryJoint> for Bound {
    ghost from_gives = { λ joint bound. bound ≡ S.bound_of joint };

    fn from(joint: RotaryJoint) -> Bound {
        Bound {
            limits: joint.limits,
            letter: joint.letter,
        }
    }
}

#[tactic(auto, unfolding(crate::specs::Posing::bounds_of))]
pub fn bounds_of(k: &Kinematics) -> Bounds
    ensures { result ≡ S.bounds_of k.now }
{
    let first = Bound::from(k.first);
    let second = k.second_rotary().map(Bound::from);
    Bounds { first, second }
}

// Of a checked chain.
#[tactic(auto, unfolding(crate::specs::Posing::set_up))]
pub fn set_up(k: &Kinematics, cone: f64) -> Setup
    ensures { result ≡ S.set_up k.now cone }
{
    let chain = chain::prepare(k);
    let bounds = bounds_of(k);
    let frame = singular_frame(chain);
    Setup {
        chain,
        bounds,
        frame,
        cone,
    }
}

fn is_limit(r: Refusal) -> bool
    ensures { result ≡ S.is_limit r.cause }
{
    r.cause == Cause::LeavesAxis
}

// Whether the lock leaves a rotary's limits.
fn leaves_limits(answer: Result<Joints, Refusal>) -> bool
    ensures { result ≡ S.leaves_limits answer }
{
    answer.is_err_and(is_limit)
}

// Whether the exact rule has a solution with no angle past 36,000.
fn succeeds(exact: Result<Joints, Refusal>) -> bool
    ensures { result ≡ S.succeeds exact }
{
    exact.is_ok_and(turned_within)
}

// Inside the cone. The exact rule is computed only where the lock leaves a rotary's limits, so that every other pose
// costs no more than the lock.
fn locked_or_exact(s: &CheckedSetup, f: SingularFrame, aim: &Aim) -> Result<Joints, Refusal>
    ensures { let t = s.now.setup in let a = aim.now in result ≡ S.locked_or_exact (cone_solution t f a.target a.tip a.previous) (exact_pose t a.target a.tip a.previous) }
{
    let locked = cone_solution(&s.setup, f, aim);
    if !leaves_limits(locked) {
        return locked;
    }
    let exact = exact_pose(s, aim);
    if succeeds(exact) {
        return exact;
    }
    locked
}

// Inside the cone locked, or exact where the lock leaves the limits; exact outside.
#[tactic(auto, unfolding(crate::specs::Posing::solve_one))]
fn solve_one(s: &CheckedSetup, aim: &Aim) -> Result<Joints, Refusal>
    ensures { result ≡ S.solve_one s.now.setup aim.now.target aim.now.tip aim.now.previous }
{
    let Some(f) = s.setup.frame else {
        return exact_pose(s, aim);
    };
    if in_singular_cone(f, s.setup.cone, aim.target) {
        return locked_or_exact(s, f, aim);
    }
    exact_pose(s, aim)
}

// Neither angle is past 36,000 degrees.
fn turned_within(j: Joints) -> bool
    ensures { result ≡ S.turned_within j }
{
    inverse::angles_within(Angles::from(j))
}

fn with_turns(answer: Result<Joints, Refusal>) -> Result<Joints, Refusal>
    ensures { result ≡ S.with_turns answer }
{
    let j = answer?;
    demand(turned_within(j), Cause::AngleTooLarge, 0)?;
    Ok(j)
}

// The tip's numbers, then the solution. `target` is a unit vector.
#[tactic(auto, unfolding(crate::specs::Posing::solved_tip))]
fn solved_tip(
    s: &CheckedSetup,
    target: Vec3,
    tip: Vec3,
    previous: Angles,
) -> Result<Joints, Refusal>
    ensures { result ≡ S.solved_tip s.now.setup target tip previous }
{
    demand(geometry::all_finite(tip), Cause::NotFinite, 0)?;
    demand(chain::all_within(tip, 100000.0), Cause::TooLarge, 0)?;
    let aim = Aim {
        target,
        tip,
        previous,
    };
    with_turns(solve_one(s, &aim))
}

#[tactic(auto, unfolding(crate::specs::Posing::solved_pose))]
fn solved_pose(s: &CheckedSetup, pose: ToolPose, previous: Angles) -> Result<Joints, Refusal>
    ensures { result ≡ S.solved_pose s.now.setup pose previous }
{
    let target = geometry::unit_direction(pose.axis).ok_or(Refusal::new(
        Cause::PoseUnreachable,
        0,
    ))?;
    solved_tip(s, target, pose.tip, previous)
}

fn at_pose(answer: Result<Joints, Refusal>, index: u64) -> Result<Joints, Refusal>
    ensures { result ≡ S.at_pose answer index }
{
    answer.map_err(|r| Refusal { at: index, ..r })
}

// The joints of a pose, continuous with the angles before it, or its refusal. By reference: a path has one setup for
// all of its poses.
#[tactic(auto, unfolding(crate::specs::Posing::pose_answer))]
pub fn pose_answer_of(
    s: &CheckedSetup,
    pose: ToolPose,
    previous: Angles,
    index: u64,
) -> Result<Joints, Refusal>
    ensures { result ≡ S.pose_answer s.now.setup pose previous index }
{
    at_pose(solved_pose(s, pose, previous), index)
}

// The same of a setup by value, which is of doubles by its type: asked is that its chain's numbers are bounded.
pub fn pose_answer(
    s: Setup,
    pose: ToolPose,
    previous: Angles,
    index: u64,
) -> Result<Joints, Refusal>
    requires { bounded s.chain ≡ true }
    ensures { result ≡ S.pose_answer s pose previous index }
{
    pose_answer_of(&CheckedSetup { setup: s }, pose, previous, index)
}
