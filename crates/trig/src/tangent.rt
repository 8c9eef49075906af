// The angle of a tangent from 0 to 1, in whole numbers of 2^-53: a guess, a check of its residual, and a bisection
// where that fails (specs/Arctangent.antt).
ghost use Rattle.std.specs.Prelude.{◌≡◌, ℕ, ◌<◌, ◌≤◌};
ghost use Rattle.trig.specs.Arctangent as Arctangent;

use crate::series::{cosine_kernel, sine_kernel};
use std::f64::consts::FRAC_PI_4;

// The residual that is allowed: 2^-50.
const SLACK: f64 = 8.881784197001252e-16;

// Near atan u, for u up to 0.4143 in size. Nothing is promised of how near.
fn arc(u: f64) -> f64
    ensures { result ≡ Arctangent.arc u }
{
    let w = u * u;
    let v = w * w;
    let q = v * v;
    let low = 1.0 - 0.3333333333333333 * w + v * (0.19999999999995438 - 0.1428571428464918 * w);
    let middle = 0.1111111101386139 - 0.09090904521500148 * w
        + v * (0.07692181876696624 - 0.06664492955081326 * w);
    let high = 0.058579884306572266 - 0.05084610777582189 * w
        + v * (0.0392074453205456 - 0.01914726376323698 * w);
    u * (low + q * (middle + q * high))
}

// Near atan t, for t from 0 to 1. Nothing is promised of how near.
pub fn start(t: f64) -> f64
    ensures { result ≡ Arctangent.start_float t }
{
    if t > 0.41421356237309503 {
        FRAC_PI_4 + arc((t - 1.0) / (t + 1.0))
    } else {
        arc(t)
    }
}

// Whether |t cos r - sin r| is at most 2^-50, in floats.
pub fn passes(t: f64, r: f64) -> bool
    ensures { result ≡ Arctangent.passes t r }
{
    let s = sine_kernel(r);
    let p = t * cosine_kernel(r);
    s <= p + SLACK && p <= s + SLACK
}

// The angle i * 2^-53, up to pi / 4.
#[derive(Clone, Copy)]
pub struct GridAngle {
    pub i: u64,
    pub ghost small: { i ≤ 7074237752028440 },
}

impl GridAngle {
    // In radians.
    pub fn radians(self) -> f64
        ensures { result ≡ Arctangent.grid_float self.i }
    {
        (self.i as f64) * 1.1102230246251565e-16
    }

    // Whether sin r <= t cos r at this angle r, in floats.
    fn steep(self, t: f64) -> bool
        ensures { result ≡ Arctangent.steep t self.i }
    {
        let r = self.radians();
        sine_kernel(r) <= t * cosine_kernel(r)
    }
}

// The sure way. Over numbers, and not over two angles: it is the middle of the two that counts, and each end would be
// taken out of its angle to find it.
fn bisect(t: f64, lo: u64, hi: u64) -> u64
    requires { (lo < hi) × (hi ≤ 7074237752028440) }
    ensures name { Arctangent.Halved t lo hi result }
    ensures small { result ≤ 7074237752028440 }
{
    if hi - lo == 1 {
        lo
    } else {
        let mid = lo + (hi - lo) / 2;
        if (GridAngle { i: mid }).steep(t) {
            bisect(t, mid, hi)
        } else {
            bisect(t, lo, mid)
        }
    }
}

// The guess, rounded to the grid; a NaN and what is below zero to 0.
fn guess(t: f64) -> GridAngle
    ensures { result.i ≡ Arctangent.guess t }
{
    let f = start(t) * 9007199254740992.0 + 0.5;
    let i = std::num::saturating_f64_to_u64(f).min(7074237752028440);
    GridAngle { i }
}

// The angle of the tangent t.
pub fn grid_angle(t: f64) -> GridAngle
    ensures { result.i ≡ Arctangent.grid_angle t }
{
    let near = guess(t);
    if passes(t, near.radians()) {
        return near;
    }
    let i = bisect(t, 0, 7074237752028440);
    GridAngle { i }
}
