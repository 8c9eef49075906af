// The tolerance test of two neighbours, and their midpoint. The test reads tips and joints alone, never a pose's axis.
// With the axes that the two joint sets reach at hand, a test costs one `forward`, and a strict one that passes in the
// middle up to two more.
ghost use Rattle.std.specs.Prelude.{◌≡◌};
ghost use Rattle.geometry.specs.Slerp.{slerp_axis};
ghost use Rattle.middle.specs.Testing as S;

use crate::{Item, Tolerances};
use chain::{Joints, Prepared, ToolPose};
use geometry::Vec3;

// Not more than 1e-12 apart.
#[tactic(auto, unfolding(crate::specs::Testing::as_near))]
fn as_near(left: f64, right: f64) -> bool
    ensures { result ≡ S.as_near left right }
{
    float::size(left - right) <= 1e-12
}

// The positions and both angles are not more than 1e-12 apart. The angles are asked first: their gaps take no root.
#[tactic(auto, unfolding(crate::specs::Testing::joints_unchanged))]
pub fn joints_unchanged(left: Joints, right: Joints) -> bool
    ensures { result ≡ S.joints_unchanged left right }
{
    as_near(left.a0, right.a0)
        && as_near(left.a1, right.a1)
        && geometry::gap_vec(left.xyz, right.xyz) <= 1e-12
}

// Halfway between two joint sets, number by number.
pub fn lerp_joints(left: Joints, right: Joints) -> Joints
    ensures { result ≡ S.lerp_joints left right }
{
    let xyz = geometry::lerp_vec(left.xyz, right.xyz, 0.5);
    let a0 = left.a0 + (right.a0 - left.a0) * 0.5;
    let a1 = left.a1 + (right.a1 - left.a1) * 0.5;
    Joints { xyz, a0, a1 }
}

// The pose that joints reach, at tool length 0.
#[tactic(auto, unfolding(crate::specs::Testing::pose_of))]
pub fn pose_of(p: Prepared, j: Joints) -> ToolPose
    ensures { result ≡ S.pose_of p j }
{
    chain::pose_at(p, j, 0.0)
}

pub fn midpoint(p: Prepared, left: Item, right: Item) -> Item
    ensures { result ≡ S.midpoint p left right }
{
    let joints = lerp_joints(left.joints, right.joints);
    let pose = pose_of(p, joints);
    Item { pose, joints }
}

// The tip reached in the middle, beside the middle of the two tips.
#[tactic(auto, unfolding(crate::specs::Testing::tip_gap))]
fn tip_gap(left: Item, right: Item, middle: Item) -> f64
    ensures { result ≡ S.tip_gap left right middle }
{
    let between = geometry::lerp_vec(left.pose.tip, right.pose.tip, 0.5);
    geometry::gap_vec(middle.pose.tip, between)
}

// The axis halfway between two, as `slerp_axis` gives it. Both weights are the same there, so one sine is enough.
// With `slerp_axis` itself, which the quarters ask for too, it would be two: it is inlined only where it has one
// caller.
fn halfway(left_axis: Vec3, right_axis: Vec3) -> Vec3
    ensures { result ≡ slerp_axis left_axis right_axis S.half }
{
    let Some(first) = geometry::unit_direction(left_axis) else {
        return right_axis;
    };
    let Some(last) = geometry::unit_direction(right_axis) else {
        return first;
    };
    let cosine = float::clamp_unit(geometry::dot(first, last));
    let Some(theta) = trig::arccosine(cosine) else {
        return first;
    };
    let Some(sin_theta) = trig::sine(theta) else {
        return first;
    };
    if sin_theta <= 1e-12 {
        if 0.0 < cosine {
            return first;
        }
        return geometry::slerp_axis(left_axis, right_axis, 0.5);
    }
    let Some(sin_half) = trig::sine(0.5 * theta) else {
        return first;
    };
    let weight = sin_half / sin_theta;
    geometry::unit_direction(first * weight + last * weight).unwrap_or(first)
}

// The axis reached in the middle, beside the middle of the two axes that the joints reach.
#[tactic(auto, unfolding(crate::specs::Testing::axis_gap))]
fn axis_gap(left_axis: Vec3, right_axis: Vec3, middle: Item) -> f64
    ensures { result ≡ S.axis_gap left_axis right_axis middle }
{
    geometry::angle_between_deg(middle.pose.axis, halfway(left_axis, right_axis))
}

// Whether both tolerances hold in the middle.
fn middle_within(
    tol: Tolerances,
    left: Item,
    right: Item,
    left_axis: Vec3,
    right_axis: Vec3,
    middle: Item,
) -> bool
    ensures { result ≡ S.middle_within tol left right left_axis right_axis middle }
{
    tip_gap(left, right, middle) <= tol.chord && axis_gap(left_axis, right_axis, middle) <= tol.axis
}

// The joint sets' numbers at a portion of the way.
fn joints_between(t: f64, left: Joints, right: Joints) -> Joints
    ensures { result ≡ S.joints_between t left right }
{
    let xyz = geometry::lerp_vec(left.xyz, right.xyz, t);
    let a0 = left.a0 + (right.a0 - left.a0) * t;
    let a1 = left.a1 + (right.a1 - left.a1) * t;
    Joints { xyz, a0, a1 }
}

// Whether both tolerances hold of the pose at a portion of the way.
fn pose_within(
    tol: &Tolerances,
    left: &Item,
    right: &Item,
    left_axis: &Vec3,
    right_axis: &Vec3,
    t: f64,
    pose: ToolPose,
) -> bool
    ensures { result ≡ S.pose_within tol.now left.now right.now left_axis.now right_axis.now t pose }
{
    let tip = geometry::lerp_vec(left.pose.tip, right.pose.tip, t);
    if geometry::gap_vec(pose.tip, tip) <= tol.chord {
        let axis = geometry::slerp_axis(*left_axis, *right_axis, t);
        return geometry::angle_between_deg(pose.axis, axis) <= tol.axis;
    }
    false
}

// Whether both tolerances hold at a portion of the way.
#[tactic(auto, unfolding(crate::specs::Testing::within_at))]
fn within_at(
    p: &Prepared,
    tol: &Tolerances,
    left: &Item,
    right: &Item,
    left_axis: &Vec3,
    right_axis: &Vec3,
    t: f64,
) -> bool
    ensures { result ≡ S.within_at p.now tol.now left.now right.now left_axis.now right_axis.now t }
{
    let pose = pose_of(*p, joints_between(t, left.joints, right.joints));
    pose_within(tol, left, right, left_axis, right_axis, t, pose)
}

// Whether they hold at both quarters.
fn quarters_within(
    p: &Prepared,
    tol: &Tolerances,
    left: &Item,
    right: &Item,
    left_axis: &Vec3,
    right_axis: &Vec3,
) -> bool
    ensures { result ≡ S.quarters_within p.now tol.now left.now right.now left_axis.now right_axis.now }
{
    within_at(p, tol, left, right, left_axis, right_axis, 0.25)
        && within_at(p, tol, left, right, left_axis, right_axis, 0.75)
}

// Whether they hold at every portion that the test asks: in the middle, which is at hand, and at the quarters only
// where the middle passes and the test is strict.
fn portions_within(
    p: &Prepared,
    tol: &Tolerances,
    left: &Item,
    right: &Item,
    left_axis: &Vec3,
    right_axis: &Vec3,
    middle: Item,
) -> bool
    requires { middle ≡ S.midpoint p.now left.now right.now }
    ensures { result ≡ S.portions_within p.now tol.now left.now right.now left_axis.now right_axis.now }
{
    middle_within(*tol, *left, *right, *left_axis, *right_axis, middle)
        && (!tol.strict || quarters_within(p, tol, left, right, left_axis, right_axis))
}

// The tolerance test.
pub fn segment_within(p: Prepared, tol: Tolerances, left: Item, right: Item) -> bool
    ensures { result ≡ S.segment_within p tol left right }
{
    if joints_unchanged(left.joints, right.joints) {
        return true;
    }
    let from = pose_of(p, left.joints);
    let to = pose_of(p, right.joints);
    let middle = midpoint(p, left, right);
    portions_within(&p, &tol, &left, &right, &from.axis, &to.axis, middle)
}

// Whether the midpoint is near one of the two.
#[tactic(auto, unfolding(crate::specs::Testing::near_an_end))]
fn near_an_end(left: Item, right: Item, middle: Item) -> bool
    ensures { result ≡ S.near_an_end left right middle }
{
    joints_unchanged(middle.joints, left.joints) || joints_unchanged(middle.joints, right.joints)
}

// What becomes of two neighbours, of which the axes reached are at hand. They stand beside the items and not with them
// in a struct: a call would read `verdict_with(p, tol, Reached { item: left, axis: left_axis }, Reached { .. })`.
// Nor are the two items one struct, here, above or in machine: halving's test and midpoint (`divides`, `midpoint`) are
// functions of two, and who calls has the two in two places, so that each call would make the struct for itself.
// Chain and tolerances are apart: `midpoint` takes the one and `middle_within` the other, so that a struct of both
// (crate turn has `Setting`) would be taken apart in the functions that get them, here, in `segment_within` and in
// `portions_within`. All are references, since the quarters are asked in a function of their own: what goes there by
// value is copied in every test, also in those that do not ask them.
pub fn verdict_with(
    p: &Prepared,
    tol: &Tolerances,
    left: &Item,
    right: &Item,
    left_axis: &Vec3,
    right_axis: &Vec3,
) -> Option<Item>
    ensures { result ≡ S.verdict_with p.now tol.now left.now right.now left_axis.now right_axis.now }
{
    if joints_unchanged(left.joints, right.joints) {
        return None;
    }
    let middle = midpoint(*p, *left, *right);
    if portions_within(p, tol, left, right, left_axis, right_axis, middle) {
        return None;
    }
    if near_an_end(*left, *right, middle) {
        return None;
    }
    Some(middle)
}
