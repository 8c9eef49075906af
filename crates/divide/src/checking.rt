// The checks of a division before its first test.
ghost use Rattle.std.specs.Prelude.{◌≡◌, true, length};
ghost use Rattle.std.specs.Float.Ieee.Scale.{finite};
ghost use Rattle.lists.specs.Search.{all};
ghost use Rattle.chain.specs.Check.{joints_within};
ghost use Rattle.path.specs.Solving.{poses_in};
ghost use Rattle.divide.specs.Checking as S;

use chain::{Kinematics, demand};
use middle::Tolerances;
use refusal::{Cause, Refusal};
use turn::every_set;

#[tactic(auto, unfolding(crate::specs::Checking::tolerance_good))]
pub fn tolerance_good(t: f64) -> bool
    ensures { result ≡ S.tolerance_good t }
{
    float::finite(t) && 0.0 < t
}

// A number that was handed over is a float of 64 bits, whatever it was read from.
pub fn numbers_finite(numbers: &[f64]) -> bool
    ensures finite { result ≡ all finite numbers.now }
    ensures fit { result ≡ true → S.FitUpTo (length numbers.now) numbers.now }
{
    numbers.iter().all(|x| float::finite(*x))
}

// Of the whole poses, six numbers each. Beside `turn::every_set`, which goes over joint sets: one function of both would
// be handed the length of a record and its reader for this one call over poses.
pub fn tips_within(poses: &[f64]) -> bool
    ensures { result ≡ all S.tip_within (poses_in poses.now) }
{
    let (whole, _) = poses.as_chunks::<6>();
    whole.iter().all(|pose| chain::all_within(path::pose_in(pose, 0).tip, 100000.0))
}

#[tactic(auto, unfolding(crate::specs::Checking::all_finite))]
fn all_finite(poses: &[f64], joints: &[f64]) -> bool
    ensures finite { result ≡ S.all_finite poses.now joints.now }
    ensures fit { result ≡ true → S.FitUpTo (length joints.now) joints.now }
{
    numbers_finite(poses) && numbers_finite(joints)
}

// A closure that only hands its argument on. Tried by the name in crate extremes, `every_set(joints, joints_within)`:
// the proof has no contract for it, since what crate chain exports has no file of that function's.
#[tactic(auto, unfolding(crate::specs::Checking::joint_sets_in))]
fn sets_within(joints: &[f64]) -> bool
    ensures { result ≡ all joints_within (S.joint_sets_in joints.now) }
{
    every_set(joints, |j| chain::joints_within(j))
}

#[tactic(auto, unfolding(crate::specs::Checking::division_sizes))]
fn division_sizes(k: &Kinematics, poses: &[f64], joints: &[f64]) -> bool
    ensures { result ≡ S.division_sizes k.now poses.now joints.now }
{
    chain::chain_within(k) && tips_within(poses) && sets_within(joints) && poses.len() / 6 <= 100000
}

// The rooms are numbers here and below: a struct of the two would be made of two slices at each call, and taken apart
// in the one line that compares them.
#[tactic(auto, unfolding(crate::specs::Checking::four_whole))]
pub fn four_whole(poses: usize, joints: usize, room_poses: usize, room_joints: usize) -> bool
    ensures { result ≡ S.four_whole poses joints room_poses room_joints }
{
    path::whole_records(poses, joints) && path::whole_records(room_poses, room_joints)
}

// Chain and tolerances are apart in this crate and those above: `turn::Setting` has the chain made ready, which comes
// behind the checks; a second struct of the two as given would be taken apart by every check, since each asks of one.
#[tactic(auto, unfolding(crate::specs::Checking::division_check, crate::specs::Checking::checks_in_order))]
pub fn division_check(
    k: &Kinematics,
    tol: Tolerances,
    poses: &[f64],
    joints: &[f64],
    room_poses: usize,
    room_joints: usize,
) -> Result<(), Refusal>
    ensures checked { result ≡ S.division_check k.now tol poses.now joints.now room_poses room_joints }
    ensures fit { result ≡ Ok tt → S.FitUpTo (length joints.now) joints.now }
{
    let whole = four_whole(poses.len(), joints.len(), room_poses, room_joints);
    demand(whole, Cause::LengthsDiffer, 0)?;
    demand(tolerance_good(tol.chord), Cause::Tolerance, 0)?;
    demand(tolerance_good(tol.axis), Cause::Tolerance, 0)?;
    let as_many = poses.len() / 6 == joints.len() / 5;
    demand(as_many, Cause::LengthsDiffer, 0)?;
    path::path_chain(k)?;
    demand(all_finite(poses, joints), Cause::NotFinite, 0)?;
    demand(division_sizes(k, poses, joints), Cause::TooLarge, 0)
}
