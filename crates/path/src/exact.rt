// Outside the cone: of the exact solutions, at most two, the closest to the joints before that stays on its branch and
// within the limits.
ghost use Rattle.std.specs.Prelude.{◌≡◌};
ghost use Rattle.path.specs.Exact as S;
ghost use Rattle.path.specs.Closest.{turned_to};
ghost use Rattle.path.specs.Unwinding.{has_second};

use crate::closest::closest_alone;
use crate::locking::{refused, within_limits};
use crate::unwinding::inside;
use crate::{Aim, Bounds, CheckedSetup, Setup};
use chain::{Joints, Prepared, demand};
use inverse::{Angles, Ranked};
use refusal::{Cause, Refusal};

// The joints of a raw pair, where there is one that puts the spindle on the target axis.
#[tactic(auto, unfolding(crate::specs::Exact::reached_by, inverse::specs::Inverse::reached_at))]
fn candidate(p: Prepared, aim: &Aim, raw: Option<Angles>) -> Option<Joints>
    ensures { result ≡ S.candidate p aim.now.target aim.now.tip raw }
{
    inverse::reached_at(p, aim.target, aim.tip, 0.0, raw?)
}

// The joints at other angles.
pub fn turned_to(j: Joints, angles: Angles) -> Joints
    ensures { result ≡ turned_to j angles }
{
    Joints {
        a0: angles.a0,
        a1: angles.a1,
        ..j
    }
}

// Whether a raw pair is the same as that of the solution before it.
fn repeats(first: Option<Joints>, raw: Option<Angles>) -> bool
    ensures { result ≡ S.repeats first raw }
{
    match (first, raw) {
        (Some(j), Some(angles)) => inverse::same_angles(Angles::from(j), angles),
        _ => false,
    }
}

#[tactic(auto, unfolding(crate::specs::Exact::second_candidate))]
fn second_candidate(
    p: Prepared,
    aim: &Aim,
    first: Option<Joints>,
    raw: Option<Angles>,
) -> Option<Joints>
    ensures { result ≡ S.second_candidate p aim.now.target aim.now.tip first raw }
{
    if repeats(first, raw) {
        return None;
    }
    candidate(p, aim, raw)
}

fn position_finite(c: Option<Joints>) -> bool
    ensures { result ≡ S.position_finite c }
{
    c.is_none_or(|j| geometry::all_finite(j.xyz))
}

// With the angles unwound; the position stays that of the raw angles.
#[tactic(auto, unfolding(crate::specs::Exact::unwound))]
fn unwound(s: &Setup, aim: &Aim, j: Joints) -> Joints
    ensures { result ≡ S.unwound (has_second s.now.bounds) aim.now.previous j }
{
    let angles = s.bounds.unwind_angles(Angles::from(j), aim.previous);
    turned_to(j, angles)
}

#[tactic(auto, unfolding(crate::specs::Exact::ranked))]
fn ranked(s: &Setup, aim: &Aim, j: Joints) -> Ranked
    ensures { result ≡ S.ranked (has_second s.now.bounds) aim.now.previous j }
{
    let joints = unwound(s, aim, j);
    let angles = Angles::from(joints);
    let distance = s.bounds.rotary_distance(angles, aim.previous);
    Ranked { joints, distance }
}

// By the distance, then as `inverse` orders its answers.
fn ranks_before(r: Ranked, q: Ranked) -> bool
    ensures { result ≡ S.ranks_before r q }
{
    float::total_cmp(r.distance, q.distance)
        .then_with(|| inverse::compare(r.joints, q.joints))
        .is_lt()
}

// The closest where it is inside; else the other, where it is inside and on the same branch.
#[tactic(auto, unfolding(crate::specs::Exact::closest_or_other))]
fn closest_or_other(b: Bounds, closest: Joints, other: Joints) -> Result<Joints, Refusal>
    ensures { result ≡ S.closest_or_other b closest other }
{
    if inside(b, closest) {
        return Ok(closest);
    }
    if inside(b, other) {
        if b.different_branch(other, closest) {
            return refused(Cause::BranchFlips);
        }
        return Ok(other);
    }
    within_limits(b, closest)
}

#[tactic(auto, unfolding(crate::specs::Exact::of_ranked))]
fn of_ranked(b: Bounds, first: Ranked, second: Ranked) -> Result<Joints, Refusal>
    ensures { result ≡ S.of_ranked b first second }
{
    if ranks_before(second, first) {
        return closest_or_other(b, second.joints, first.joints);
    }
    closest_or_other(b, first.joints, second.joints)
}

#[tactic(auto, unfolding(crate::specs::Exact::alone))]
fn alone(s: &Setup, aim: &Aim, j: Joints) -> Result<Joints, Refusal>
    ensures { result ≡ S.alone s.now.bounds aim.now.previous j }
{
    within_limits(s.bounds, unwound(s, aim, j))
}

#[tactic(auto, unfolding(crate::specs::Exact::both))]
fn both(s: &Setup, aim: &Aim, j: Joints, k: Joints) -> Result<Joints, Refusal>
    ensures { result ≡ S.both s.now.bounds aim.now.previous j k }
{
    of_ranked(s.bounds, ranked(s, aim, j), ranked(s, aim, k))
}

fn of_candidates(
    s: &Setup,
    aim: &Aim,
    first: Option<Joints>,
    second: Option<Joints>,
) -> Result<Joints, Refusal>
    ensures { result ≡ S.of_candidates s.now.bounds aim.now.previous first second }
{
    match (first, second) {
        (Some(j), Some(k)) => both(s, aim, j, k),
        (Some(j), None) => alone(s, aim, j),
        (None, Some(k)) => alone(s, aim, k),
        (None, None) => refused(Cause::PoseUnreachable),
    }
}

// Whether the positions are finite, and one of the candidates.
#[tactic(auto, unfolding(crate::specs::Exact::of_positions))]
fn of_positions(
    s: &Setup,
    aim: &Aim,
    first: Option<Joints>,
    second: Option<Joints>,
) -> Result<Joints, Refusal>
    ensures { result ≡ S.of_positions s.now.bounds aim.now.previous first second }
{
    demand(position_finite(first), Cause::NotFinite, 0)?;
    demand(position_finite(second), Cause::NotFinite, 0)?;
    of_candidates(s, aim, first, second)
}

// The answer of both raw pairs.
#[tactic(auto, unfolding(crate::specs::Exact::of_raw))]
fn of_raw(s: &Setup, aim: &Aim, one: Option<Angles>, two: Option<Angles>) -> Result<Joints, Refusal>
    ensures { result ≡ S.of_raw s.now aim.now.target aim.now.tip aim.now.previous one two }
{
    let first = candidate(s.chain, aim, one);
    let second = second_candidate(s.chain, aim, first, two);
    of_positions(s, aim, first, second)
}

// Of bounded doubles both solutions have a finite position, so that the closer one alone can be the answer. Both go by
// reference: by value their 264 bytes would be copied for every pose.
pub fn exact_pose(s: &CheckedSetup, aim: &Aim) -> Result<Joints, Refusal>
    ensures { result ≡ S.exact_pose s.now.setup aim.now.target aim.now.tip aim.now.previous }
{
    let raw = inverse::orientation_angles(s.setup.chain, aim.target, aim.previous);
    let one = raw.first;
    let two = raw.second;
    let closest = closest_alone(&s.setup, aim, one, two);
    match closest {
        Some(j) => Ok(j),
        None => of_raw(&s.setup, aim, one, two),
    }
}
