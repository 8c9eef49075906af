// The angle of (x, y) from the angle of its smaller ratio, by the eighths of the plane (specs/Arctangent.antt).
ghost use Rattle.std.specs.Prelude.{◌≡◌, ℕ, ◌^◌, ◌<◌, ◌≤◌, Bool, true, false};
ghost use Rattle.std.specs.Float.Ieee.Scale.{finite as is_finite};
ghost use Rattle.trig.specs.Arctangent as Arctangent;

use crate::tangent::{GridAngle, grid_angle, passes, start};
use std::f64::consts::{FRAC_PI_2, FRAC_PI_4, PI};

// a / b, at most 1. Tried by `min`: its contract leaves open which of two equal numbers comes out, and no law says that
// a double equal to 1.0 is 1.0.
fn ratio(a: f64, b: f64) -> f64
    ensures { result ≡ Arctangent.ratio_float a b }
{
    let t = a / b;
    if t <= 1.0 { t } else { 1.0 }
}

// z * 2^-51.
fn quarter(z: u64) -> f64
    requires { z < 2 ^ 53 }
    ensures { result ≡ Arctangent.quarter_float z }
{
    (z as f64) * 4.440892098500626e-16
}

// `lean` differs from the two beside it in sign and side, `rise` and `back` in their constants. One function of both
// constants would ask for a bound of each, and the two would still be functions: each has its definition.

// pi / 2 less the angle: past pi / 4.
fn rise(a: GridAngle) -> f64
    ensures { result ≡ Arctangent.rise_float a.i }
{
    quarter(((14148475504056880 - a.i) / 4).max(1768559438007111))
}

// pi / 2 and the angle: not past 3 pi / 4.
fn lean(a: GridAngle) -> f64
    ensures { result ≡ Arctangent.lean_float a.i }
{
    quarter(((14148475504056880 + a.i) / 4 + 1).min(5305678314021330))
}

// pi less the angle: past 3 pi / 4.
fn back(a: GridAngle) -> f64
    ensures { result ≡ Arctangent.back_float a.i }
{
    quarter(((28296951008113761 - a.i) / 4).max(5305678314021331))
}

// The angle of the tangent t, on the grid.
fn coarse(t: f64) -> f64
    ensures { result ≡ Arctangent.grid_float (Arctangent.grid_angle t) }
{
    grid_angle(t).radians()
}

// The angle of the tangent t: the guess itself where it passes, so that a small angle keeps its digits.
fn flat(t: f64) -> f64
    ensures { result ≡ Arctangent.flat_float t }
{
    let r = start(t);
    if 0.0 < r && r <= FRAC_PI_4 && passes(t, r) {
        r
    } else {
        coarse(t)
    }
}

// The angle of (x, y), both above zero.
fn right(y: f64, x: f64) -> f64
    ensures { result ≡ Arctangent.right_float y x }
{
    if y <= x {
        let t = ratio(y, x);
        flat(t)
    } else {
        let t = ratio(x, y);
        rise(grid_angle(t))
    }
}

// The angle of (-b, y), for b and y above zero.
fn left(y: f64, b: f64) -> f64
    ensures { result ≡ Arctangent.left_float y b }
{
    if b <= y {
        let t = ratio(b, y);
        lean(grid_angle(t))
    } else {
        let t = ratio(y, b);
        back(grid_angle(t))
    }
}

// The angle of (x, y), for y above zero.
fn upper(y: f64, x: f64) -> f64
    ensures { result ≡ Arctangent.upper_float y x }
{
    if x == 0.0 {
        FRAC_PI_2
    } else if x < 0.0 {
        left(y, -x)
    } else {
        right(y, x)
    }
}

// The angle of (x, y), for a zero y.
fn level(y: f64, x: f64) -> f64
    requires y_finite { is_finite y ≡ true }
    requires x_finite { is_finite x ≡ true }
    ensures { result ≡ Arctangent.level_float y x }
{
    if x.is_sign_negative() {
        PI.copysign(y)
    } else {
        y
    }
}

// The angle of (x, y).
pub fn angle(y: f64, x: f64) -> f64
    requires y_finite { is_finite y ≡ true }
    requires x_finite { is_finite x ≡ true }
    ensures { result ≡ Arctangent.angle_float y x }
{
    if y == 0.0 {
        level(y, x)
    } else if y < 0.0 {
        -upper(-y, x)
    } else {
        upper(y, x)
    }
}
