// The call of both: the joints of every pose, then the division of the poses with them. The joints are solved into the
// front of their output, and divided there: C lends no other place for them.
ghost use Rattle.std.specs.Prelude.{ℕ, ◌*◌, ◌/◌, ◌≤◌, ◌≡◌, length, take};
ghost use Rattle.divide.specs.Subdividing as S;
ghost use Rattle.divide.specs.Looser.{Later};
ghost use Rattle.divide.specs.Price.{IfSolved, SolvedAndDivided};

use crate::DivisionError;
use crate::checking::division_check;
use crate::subdividing::halve_solved;
use chain::{Joints, Kinematics, demand};
use middle::Tolerances;
use refusal::{Cause, Refusal};
use turn::space_in;

// Of three lengths: by `four_whole` the call would name the room for joint sets twice.
#[tactic(auto, unfolding(crate::specs::Subdividing::three_whole))]
pub fn three_whole(poses: usize, room_poses: usize, room_joints: usize) -> bool
    ensures { result ≡ S.three_whole poses room_poses room_joints }
{
    path::whole_records(poses, room_joints) && path::whole_records(room_poses, room_joints)
}

// Every buffer's records, then the checks of solve_path with as much space as division has.
#[tactic(auto, unfolding(crate::specs::Subdividing::both_check))]
fn both_check(
    k: &Kinematics,
    start: Option<Joints>,
    cone: f64,
    numbers: usize,
    room_poses: usize,
    room_joints: usize,
) -> Result<(), Refusal>
    ensures { result ≡ S.both_check k.now start cone numbers room_poses room_joints }
{
    demand(
        three_whole(numbers, room_poses, room_joints),
        Cause::LengthsDiffer,
        0,
    )?;
    let room = space_in(room_poses, room_joints) * 5;
    path::solve_check(k, start, cone, numbers, room)
}

// The division of what is solved; here its refusals leave +0.0 in both outputs, so they are no `?`.
fn divide_found(
    k: &Kinematics,
    tol: Tolerances,
    given: &[f64],
    poses: &mut [f64],
    joints: &mut [f64],
) -> Result<u64, DivisionError>
    requires { length given.now / 6 * 5 ≤ length joints.old }
    ensures answer { result ≡ S.division_in (S.found_in k.now tol given.now (length poses.old) joints.old) }
    ensures poses { poses.new ≡ S.poses_left (S.found_in k.now tol given.now (length poses.old) joints.old) poses.old }
    ensures joints { joints.new ≡ S.joints_left (S.found_in k.now tol given.now (length poses.old) joints.old) joints.old }
    ensures price { IfSolved k.now tol given.now (take (length given.now / 6 * 5) joints.old) (length poses.old) (length joints.old) result poses.new joints.new }
    ensures later { Later k.now tol given.now (take (length given.now / 6 * 5) joints.old) (length poses.old) (length joints.old) result poses.new joints.new }
{
    chain::chain_fits(*k);
    let numbers = given.len() / 6 * 5;
    let room = joints.len();
    if let Err(r) = division_check(k, tol, given, &joints[..numbers], poses.len(), room) {
        poses.fill(0.0);
        joints.fill(0.0);
        return Err(DivisionError::Refused(r));
    }
    Ok(halve_solved(k, tol, given, poses, joints)?)
}

// A path solved and divided. A refusal at a pose leaves +0.0 too, and is no `From<Refusal>`, which says `Refused`.
pub fn solve_and_divide(
    k: &Kinematics,
    given: &[f64],
    start: Option<Joints>,
    cone: f64,
    tol: Tolerances,
    poses: &mut [f64],
    joints: &mut [f64],
) -> Result<u64, DivisionError>
    ensures answer { result ≡ S.division_in (S.solve_and_divide k.now given.now start cone tol (length poses.old) (length joints.old)) }
    ensures poses { poses.new ≡ S.poses_left (S.solve_and_divide k.now given.now start cone tol (length poses.old) (length joints.old)) poses.old }
    ensures joints { joints.new ≡ S.joints_left (S.solve_and_divide k.now given.now start cone tol (length poses.old) (length joints.old)) joints.old }
    ensures price { SolvedAndDivided k.now given.now start cone tol result poses.old joints.old poses.new joints.new }
{
    chain::chain_fits(*k);
    both_check(k, start, cone, given.len(), poses.len(), joints.len())?;
    if let Err(r) = path::solve_checked(k, given, start, cone, joints) {
        poses.fill(0.0);
        return Err(DivisionError::AtPose(r));
    }
    divide_found(k, tol, given, poses, joints)
}
