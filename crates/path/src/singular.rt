// The singular direction: where one rotary lies on the spindle and the other can tilt off it, the tool axis along that
// rotary leaves its angle free.
ghost use Rattle.std.specs.Prelude.{◌≡◌};
ghost use Rattle.path.specs.Singular as S;

use crate::SingularFrame;
use chain::Prepared;
use geometry::{Vec3, dot};

// The axis in the sense of a direction, by its part along that.
#[tactic(auto, unfolding(crate::specs::Singular::in_sense))]
fn in_sense(axis: Vec3, along: f64) -> Vec3
    ensures { result ≡ S.in_sense axis along }
{
    if 0.0 <= along {
        return axis;
    }
    axis * -1.0
}

// With that rotary on the spindle, its part along it, and that of the other one.
#[tactic(auto, unfolding(crate::specs::Singular::frame_on))]
fn frame_on(
    on_second: bool,
    axis: Vec3,
    spindle: Vec3,
    best: f64,
    other: f64,
) -> Option<SingularFrame>
    ensures { result ≡ S.frame_on on_second axis spindle best other }
{
    if best < 1.0 - 1e-6 {
        return None;
    }
    if 1e-3 < other {
        return None;
    }
    let direction = in_sense(axis, dot(axis, spindle));
    Some(SingularFrame {
        on_second,
        direction,
    })
}

// Of two rotaries that are as near to the spindle the first.
#[tactic(auto, unfolding(crate::specs::Singular::frame_of_two))]
fn frame_of_two(first: Vec3, second: Vec3, spindle: Vec3) -> Option<SingularFrame>
    ensures { result ≡ S.frame_of_two first second spindle }
{
    let one = float::size(dot(first, spindle));
    let two = float::size(dot(second, spindle));
    if one < two {
        return frame_on(true, second, spindle, two, one);
    }
    frame_on(false, first, spindle, one, two)
}

#[tactic(auto, unfolding(crate::specs::Singular::singular_frame))]
pub fn singular_frame(p: Prepared) -> Option<SingularFrame>
    ensures { result ≡ S.singular_frame p }
{
    let first = p.first;
    let second = p.second?;
    frame_of_two(first.axis, second.axis, p.spindle)
}

// The angle in degrees from a unit axis to the nearer of the two poles.
#[tactic(auto, unfolding(crate::specs::Singular::pole_clearance_deg))]
fn pole_clearance_deg(axis: Vec3, direction: Vec3) -> f64
    ensures { result ≡ S.pole_clearance_deg axis direction }
{
    let cosine = float::clamp_unit(dot(axis, direction));
    let Some(near) = trig::arccosine(cosine) else {
        return 180.0;
    };
    let Some(far) = trig::arccosine(-cosine) else {
        return 180.0;
    };
    float::to_degrees(float::minimum(near, far))
}

// Beyond 10 degrees of both poles, by the cosine: no cone has the axis in it, and no angle is needed.
#[tactic(auto, unfolding(crate::specs::Singular::well_outside))]
fn well_outside(cosine: f64, cone: f64) -> bool
    ensures { result ≡ S.well_outside cosine cone }
{
    cone <= 10.0
        && float::size(cosine) <= 0.984375
        && 0.031005859375 <= (1.0 - cosine) * (1.0 + cosine)
}

pub fn in_singular_cone(f: SingularFrame, cone: f64, axis: Vec3) -> bool
    ensures { result ≡ S.in_singular_cone f cone axis }
{
    let cosine = float::clamp_unit(dot(axis, f.direction));
    if well_outside(cosine, cone) {
        return false;
    }
    pole_clearance_deg(axis, f.direction) <= cone
}

#[tactic(auto, unfolding(crate::specs::Singular::nearest_pole))]
pub fn nearest_pole(target: Vec3, direction: Vec3) -> Vec3
    ensures { result ≡ S.nearest_pole target direction }
{
    in_sense(direction, dot(target, direction))
}
