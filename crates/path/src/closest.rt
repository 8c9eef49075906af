// Of two exact solutions the closer one alone, where it is reached and within the limits: the other one then changes
// nothing, so that its turns and its position are not computed. `None` says only that both are needed.
ghost use Rattle.std.specs.Prelude.{◌≡◌};
ghost use Rattle.path.specs.Closest as S;

use crate::exact::turned_to;
use crate::unwinding::inside;
use crate::{Aim, Bounds, Setup};
use chain::Joints;
use inverse::Angles;

// The joints at these angles, within the limits.
#[tactic(auto, unfolding(crate::specs::Closest::kept_at))]
fn kept_at(b: Bounds, j: Joints, angles: Angles) -> Option<Joints>
    ensures { result ≡ S.kept_at b j angles }
{
    let turned = turned_to(j, angles);
    inside(b, turned).then_some(turned)
}

// A pair of angles, with the same unwound.
#[tactic(auto, unfolding(crate::specs::Closest::kept, crate::specs::Exact::reached_by, inverse::specs::Inverse::reached_at))]
fn kept(s: &Setup, aim: &Aim, angles: Angles, unwound: Angles) -> Option<Joints>
    ensures { result ≡ S.kept s.now aim.now.target aim.now.tip angles unwound }
{
    let j = inverse::reached_at(s.chain, aim.target, aim.tip, 0.0, angles)?;
    kept_at(s.bounds, j, unwound)
}

// From 0 to 8,100, and from 10,000 on: the root of the one is at most 90, that of the other at least 100.
// By comparisons, as the definition has it: `contains` of a range has a flag besides, and the check does not find it.
#[tactic(auto, unfolding(crate::specs::Closest::far_apart))]
fn far_apart(near: f64, far: f64) -> bool
    ensures { result ≡ S.far_apart near far }
{
    0.0 <= near && near <= 8100.0 && 10000.0 <= far
}

// Which of two lengths is the shorter, by their squares: with roots only where they are not far apart.
fn root_before(x: f64, y: f64) -> bool
    ensures { result ≡ S.root_before x y }
{
    if far_apart(x, y) {
        return true;
    }
    if far_apart(y, x) {
        return false;
    }
    float::precedes(root::root(x), root::root(y))
}

// Neither of two that tie.
#[tactic(auto, unfolding(crate::specs::Closest::closer, crate::specs::Unwinding::rotary_distance, crate::specs::Closest::root_before))]
fn closer(s: &Setup, aim: &Aim, one: Angles, two: Angles) -> Option<Joints>
    ensures { result ≡ S.closer s.now aim.now.target aim.now.tip aim.now.previous one two }
{
    let previous = aim.previous;
    let first = s.bounds.unwind_angles(one, previous);
    let second = s.bounds.unwind_angles(two, previous);
    let near = s.bounds.rotary_square(first, previous);
    let far = s.bounds.rotary_square(second, previous);
    if root_before(far, near) {
        return kept(s, aim, two, second);
    }
    if root_before(near, far) {
        return kept(s, aim, one, first);
    }
    None
}

// Of two raw pairs that are not the same.
pub fn closest_alone(
    s: &Setup,
    aim: &Aim,
    one: Option<Angles>,
    two: Option<Angles>,
) -> Option<Joints>
    ensures { result ≡ S.closest_alone s.now aim.now.target aim.now.tip aim.now.previous one two }
{
    let first = one?;
    let second = two?;
    if inverse::same_angles(first, second) {
        return None;
    }
    closer(s, aim, first, second)
}
