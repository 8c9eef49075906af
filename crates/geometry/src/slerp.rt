// The axis between two axes, and the angle between two.
ghost use Rattle.std.specs.Prelude.{◌≡◌};
ghost use Rattle.geometry.specs.Slerp as S;

use crate::normal::{unit_direction, unit_or};
use crate::vector::{cross, dot, norm};
use crate::{Turn, Vec3};
use std::f64::consts::PI;

// Between opposite axes: on the great circle toward +X, or toward +Y where `start` is along X.
fn half_turn(start: Vec3, t: f64) -> Vec3
    ensures { result ≡ S.half_turn start t }
{
    let helper = side_helper(start);
    let Some(side) = unit_direction(cross(start, helper)) else {
        return start;
    };
    let Some(p) = trig::sine_cosine(t * PI) else {
        return start;
    };
    unit_or(start * p.cosine + side * p.sine, start)
}

#[tactic(auto, unfolding(crate::specs::Slerp::side_helper))]
fn side_helper(start: Vec3) -> Vec3
    ensures { result ≡ S.side_helper start }
{
    if 0.9 < float::size(start.x) {
        return Vec3 {
            y: 1.0,
            ..Vec3::default()
        };
    }
    Vec3 {
        x: 1.0,
        ..Vec3::default()
    }
}

// By the two weights sin((1 - t) theta) / sin theta and sin(t theta) / sin theta.
fn weighted(start: Vec3, end: Vec3, theta: f64, sin_theta: f64, t: f64) -> Vec3
    ensures { result ≡ S.weighted start end theta sin_theta t }
{
    let Some(first) = trig::sine((1.0 - t) * theta) else {
        return start;
    };
    let Some(second) = trig::sine(t * theta) else {
        return start;
    };
    let between = start * (first / sin_theta) + end * (second / sin_theta);
    unit_or(between, start)
}

// Of two unit axes with that cosine between them.
fn slerp_cosine(start: Vec3, end: Vec3, cosine: f64, t: f64) -> Vec3
    ensures { result ≡ S.slerp_cosine start end cosine t }
{
    let Some(theta) = trig::arccosine(cosine) else {
        return start;
    };
    let Some(sin_theta) = trig::sine(theta) else {
        return start;
    };
    if sin_theta <= 1e-12 {
        if 0.0 < cosine {
            return start;
        }
        return half_turn(start, t);
    }
    weighted(start, end, theta, sin_theta, t)
}

// The unit axis at t on the great circle from start to end.
pub fn slerp_axis(start: Vec3, end: Vec3, t: f64) -> Vec3
    ensures { result ≡ S.slerp_axis start end t }
{
    let Some(first) = unit_direction(start) else {
        return end;
    };
    let Some(last) = unit_direction(end) else {
        return first;
    };
    let cosine = float::clamp_unit(dot(first, last));
    slerp_cosine(first, last, cosine, t)
}

// In degrees; 180 where one of them has no direction.
pub fn angle_between_deg(left: Vec3, right: Vec3) -> f64
    ensures { result ≡ S.angle_between_deg left right }
{
    let Some(a) = unit_direction(left) else {
        return 180.0;
    };
    let Some(b) = unit_direction(right) else {
        return 180.0;
    };
    let sine = norm(cross(a, b));
    let cosine = float::clamp_unit(dot(a, b));
    let Some(radians) = trig::arctangent(sine, cosine) else {
        return 180.0;
    };
    float::size(float::to_degrees(radians))
}
