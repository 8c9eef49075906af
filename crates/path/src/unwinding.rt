// Angles beside the angles before them: whole turns taken off, the distance, another branch, the limits.
ghost use Rattle.std.specs.Prelude.{◌≡◌};
ghost use Rattle.path.specs.Unwinding as S;

use crate::Bounds;
use chain::{Joints, RotaryLimits};
use inverse::Angles;

// Turned on by that many whole turns; by none, the bits stay.
#[tactic(auto, unfolding(crate::specs::Unwinding::by_turns))]
fn by_turns(angle: f64, turns: f64) -> f64
    ensures { result ≡ S.by_turns angle turns }
{
    if turns == 0.0 {
        return angle;
    }
    angle + 360.0 * turns
}

// By whole turns as near as can be to the angle before it.
#[tactic(auto, unfolding(crate::specs::Unwinding::unwind_angle))]
fn unwind_angle(angle: f64, previous: f64) -> f64
    ensures { result ≡ S.unwind_angle angle previous }
{
    if !float::finite(angle) {
        return angle;
    }
    if !float::finite(previous) {
        return angle;
    }
    by_turns(angle, float::round((previous - angle) / 360.0))
}

// More than 90 degrees apart.
#[tactic(auto, unfolding(crate::specs::Unwinding::split))]
fn split(left: f64, right: f64) -> bool
    ensures { result ≡ S.split left right }
{
    90.0 < float::size(left - right)
}

// Within the limits, or finite where there are none. As `allowed` of crate inverse but for the last test: one function
// of both would be `limited_or(travel, angle, float::finite(angle))`, and hide a `map_or`.
fn permits(travel: Option<RotaryLimits>, angle: f64) -> bool
    ensures { result ≡ S.permits travel angle }
{
    travel.map_or(float::finite(angle), |limits| limits.contains(angle))
}

// Over the rotaries that there are: the second angle of a chain of one is not looked at.
impl Bounds {
    // Both angles of two rotaries, else the first.
    #[tactic(auto, unfolding(crate::specs::Unwinding::unwind_angles))]
    pub(crate) fn unwind_angles(&self, angles: Angles, previous: Angles) -> Angles
        ensures { result ≡ S.unwind_angles (S.has_second self.now) angles previous }
    {
        let a0 = unwind_angle(angles.a0, previous.a0);
        if self.second.is_some() {
            let a1 = unwind_angle(angles.a1, previous.a1);
            return Angles { a0, a1 };
        }
        Angles { a0, ..angles }
    }

    // The square of the length of the change of the angles.
    #[tactic(auto, unfolding(crate::specs::Unwinding::rotary_square, crate::specs::Unwinding::squared))]
    pub(crate) fn rotary_square(&self, angles: Angles, previous: Angles) -> f64
        ensures { result ≡ S.rotary_square (S.has_second self.now) angles previous }
    {
        let first = angles.a0 - previous.a0;
        if self.second.is_some() {
            let second = angles.a1 - previous.a1;
            return 0.0 + first * first + second * second;
        }
        0.0 + first * first
    }

    // The length of the change of the angles.
    #[tactic(auto, unfolding(crate::specs::Unwinding::rotary_distance))]
    pub(crate) fn rotary_distance(&self, angles: Angles, previous: Angles) -> f64
        ensures { result ≡ S.rotary_distance (S.has_second self.now) angles previous }
    {
        root::root(self.rotary_square(angles, previous))
    }

    // Whether a rotary is on another branch.
    #[tactic(auto, unfolding(crate::specs::Unwinding::different_branch))]
    pub(crate) fn different_branch(&self, left: Joints, right: Joints) -> bool
        ensures { result ≡ S.different_branch (S.has_second self.now) left right }
    {
        split(left.a0, right.a0) || (self.second.is_some() && split(left.a1, right.a1))
    }

    #[tactic(auto, unfolding(crate::specs::Unwinding::first_inside))]
    fn first_inside(&self, j: Joints) -> bool
        ensures { result ≡ S.first_inside self.now j }
    {
        permits(self.first.limits, j.a0)
    }

    #[tactic(auto, unfolding(crate::specs::Unwinding::second_inside))]
    fn second_inside(&self, j: Joints) -> bool
        ensures { result ≡ S.second_inside self.now j }
    {
        self.second
            .is_none_or(|second| permits(second.limits, j.a1))
    }

    // The letter of the first rotary that is outside, of joints that are not inside.
    #[tactic(auto, unfolding(crate::specs::Unwinding::axis_outside))]
    pub(crate) fn axis_outside(&self, j: Joints) -> u8
        ensures { result ≡ S.axis_outside self.now j }
    {
        if self.first_inside(j) {
            return self
                .second
                .map_or(self.first.letter, |second| second.letter);
        }
        self.first.letter
    }
}

// Whether every rotary is within its limits.
#[tactic(auto, unfolding(crate::specs::Unwinding::inside))]
pub fn inside(b: Bounds, j: Joints) -> bool
    ensures { result ≡ S.inside b j }
{
    b.first_inside(j) && b.second_inside(j)
}
