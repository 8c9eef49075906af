// The summary of a path in lent numbers: the extremes of a group of joint sets, of one group and of all.
ghost use Rattle.std.specs.Prelude.{◌+◌, ◌-◌, ◌*◌, ◌/◌, ◌≤◌, ◌<◌, ◌≡◌, length, take, drop};
ghost use Rattle.std.specs.List.{fold};
ghost use Rattle.std.specs.Simd.{first_chunks};
ghost use Rattle.float.specs.TotalOrder.{before};
ghost use Rattle.turn.specs.Items.{joints_in};
ghost use Rattle.extremes.specs.Summary as S;
ghost use Rattle.extremes.specs.AskingSteps.{group_end};

use crate::Extremes;
use chain::Joints;
use geometry::Vec3;

// Whether x stands before y in totalOrder. Two numbers of which one is less take no key. That y is less is asked first:
// most numbers of a group are between its extremes, and then this is the only test.
fn earlier(x: f64, y: f64) -> bool
    ensures { result ≡ before x y }
{
    if y < x {
        return false;
    }
    if x < y {
        return true;
    }
    float::precedes(x, y)
}

#[tactic(auto, unfolding(crate::specs::Summary::lower))]
fn lower(x: f64, y: f64) -> f64
    ensures { result ≡ S.lower x y }
{
    if earlier(y, x) { y } else { x }
}

#[tactic(auto, unfolding(crate::specs::Summary::upper))]
fn upper(x: f64, y: f64) -> f64
    ensures { result ≡ S.upper x y }
{
    if earlier(x, y) { y } else { x }
}

// Two joint sets number by number.
fn each_number<F: Fn(f64, f64) -> f64>(pick: F, a: Joints, b: Joints) -> Joints
    requires { F.IsAlwaysCallable pick }
    ensures x { F.post pick a.xyz.x b.xyz.x result.xyz.x }
    ensures y { F.post pick a.xyz.y b.xyz.y result.xyz.y }
    ensures z { F.post pick a.xyz.z b.xyz.z result.xyz.z }
    ensures a0 { F.post pick a.a0 b.a0 result.a0 }
    ensures a1 { F.post pick a.a1 b.a1 result.a1 }
{
    let p = a.xyz;
    let q = b.xyz;
    let x = pick(p.x, q.x);
    let y = pick(p.y, q.y);
    let z = pick(p.z, q.z);
    let a0 = pick(a.a0, b.a0);
    let a1 = pick(a.a1, b.a1);
    let xyz = Vec3 { x, y, z };
    Joints { xyz, a0, a1 }
}

// One joint set more.
fn widened(e: Extremes, j: Joints) -> Extremes
    ensures { result ≡ S.widened e j }
{
    let low = each_number(lower, e.low, j);
    let high = each_number(upper, e.high, j);
    Extremes { low, high }
}

// Over chunks, of which `chunks_widened` says that they are the joint sets.
fn widened_by(e: Extremes, joints: &[f64]) -> Extremes
    ensures { result ≡ fold (λ e c. S.widened e (joints_in c 0)) e (first_chunks 5 (length joints.now / 5) joints.now) }
{
    let (sets, _) = joints.as_chunks::<5>();
    sets.iter()
        .fold(e, |e, set| widened(e, turn::joints_in(set, 0)))
}

// Of the joint sets from an index up to an end, at least one.
fn extremes_at(joints: &[f64], from: usize, end: usize) -> Extremes
    requires { (from < end) × (end ≤ length joints.now / 5) }
    ensures { result ≡ S.extremes_of (take (end - from) (drop from (S.sets_in joints.now))) }
{
    let first = turn::joints_in(joints, from * 5);
    let e = Extremes {
        low: first,
        high: first,
    };
    widened_by(e, &joints[from * 5 + 5..end * 5])
}

// Where the group that begins at an index ends: after 64, or with the last joint set.
#[tactic(auto, unfolding(crate::specs::AskingSteps::group_end))]
pub fn group_end(from: usize, n: usize) -> usize
    requires { from ≤ n }
    ensures { result ≡ group_end from n }
{
    from + (n - from).min(64)
}

// Writes the ten numbers of a group, the smallest five first. That they fit is asked here and below and is no fact of a
// type: `Summed` is of a summary that is read, and this one is written, a group at a time.
fn put_extremes(e: Extremes, summary: &mut [f64], g: usize)
    requires { g * 10 + 10 ≤ length summary.old }
    ensures { summary.new ≡ S.extremes_over e summary.old g }
{
    path::put_joints(e.low, summary, g * 10);
    path::put_joints(e.high, summary, g * 10 + 5);
}

// One group, worked out afresh. It is written by its index and not as one of the rows of ten: once a borrow from
// `as_chunks_mut` is over, a proof knows the list's length and not its numbers.
pub fn sum_group(joints: &[f64], summary: &mut [f64], g: usize)
    requires { (g * 64 < length joints.now / 5) × (g * 10 + 10 ≤ length summary.old) }
    ensures { summary.new ≡ S.resummed summary.old (S.sets_in joints.now) g }
{
    let from = g * 64;
    let end = group_end(from, joints.len() / 5);
    let e = extremes_at(joints, from, end);
    put_extremes(e, summary, g);
}

#[tactic(auto, unfolding(crate::specs::Summary::group_count))]
pub fn group_count(n: usize) -> usize
    requires { n + 63 ≤ 18446744073709551615 }
    ensures { result ≡ S.group_count n }
{
    (n + 63) / 64
}

// Every group.
pub fn sum_groups(joints: &[f64], summary: &mut [f64])
    requires { length summary.old ≡ S.group_count (length joints.now / 5) * 10 }
    ensures { summary.new ≡ S.summary_of (S.sets_in joints.now) }
{
    for g in 0..group_count(joints.len() / 5) {
        sum_group(joints, summary, g);
    }
}
