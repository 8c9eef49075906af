// A pose and its joint set in lent numbers: six in one slice, five in another, at one index.
ghost use Rattle.std.specs.Prelude.{Bool, ◌+◌, ◌*◌, ◌/◌, ◌≤◌, ◌≡◌, length};
ghost use Rattle.lists.specs.Rows.{rows};
ghost use Rattle.lists.specs.Search.{all};
ghost use Rattle.turn.specs.Items as S;

use chain::{Joints, ToolPose};
use geometry::Vec3;
use middle::Item;

// The joint set whose five numbers begin there. Some who call have a place in flat numbers, some a slice that C lent
// and a check found to be five long, and some a row of `as_chunks::<5>()`. A function of `&[f64; 5]` would serve the
// last alone and read the same five numbers; as a `From` it would be crate chain's, whose type `Joints` is.
#[tactic(auto, unfolding(crate::specs::Items::joints_in))]
pub fn joints_in(joints: &[f64], at: usize) -> Joints
    requires { at + 5 ≤ length joints.now }
    ensures { result ≡ S.joints_in joints.now at }
{
    let xyz = Vec3 {
        x: joints[at],
        y: joints[at + 1],
        z: joints[at + 2],
    };
    Joints {
        xyz,
        a0: joints[at + 3],
        a1: joints[at + 4],
    }
}

// Whether each of the joint sets passes.
pub fn every_set<F: Fn(Joints) -> bool>(joints: &[f64], test: F) -> bool
    requires { F.IsAlwaysCallable test }
    ensures { (t : Joints → Bool) → ((j : Joints) (b : Bool) → F.post test j b → b ≡ t j) → result ≡ all t (rows 5 S.joints_from (length joints.now / 5) joints.now) }
{
    let (sets, _) = joints.as_chunks::<5>();
    sets.iter().all(|set| test(joints_in(set, 0)))
}

// Writes the six numbers of a pose.
pub fn put_pose(p: ToolPose, out: &mut [f64], at: usize)
    requires { at + 6 ≤ length out.old }
    ensures { out.new ≡ S.pose_over p out.old at }
{
    let tip = p.tip;
    let axis = p.axis;
    out[at..at + 6].copy_from_slice(&[tip.x, tip.y, tip.z, axis.x, axis.y, axis.z]);
}

#[tactic(auto, unfolding(crate::specs::Items::item_at))]
pub fn item_at(poses: &[f64], joints: &[f64], i: usize) -> Item
    requires { (i * 6 + 6 ≤ length poses.now) × (i * 5 + 5 ≤ length joints.now) }
    ensures { result ≡ S.item_at poses.now joints.now i }
{
    let pose = path::pose_in(poses, i * 6);
    let joints = joints_in(joints, i * 5);
    Item { pose, joints }
}

// How many items two outputs of so many numbers have space for.
#[tactic(auto, unfolding(crate::specs::Items::space_in))]
pub fn space_in(room_poses: usize, room_joints: usize) -> usize
    ensures { result ≡ S.space_in room_poses room_joints }
{
    (room_poses / 6).min(room_joints / 5)
}
