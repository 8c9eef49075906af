// The reduction of an angle by the nearest multiple of Pi / 2: exact, in whole numbers, and one rounding at the end
// (specs/Reduction.antt).
ghost use Rattle.std.specs.Prelude.{◌≡◌, ℕ, ◌*◌, ◌^◌, ◌≤◌};
ghost use Rattle.trig.specs.Reduction as Reduction;

use std::f64::consts::FRAC_PI_4;

// The whole number nearest to x / (Pi / 2), for x in units of 2^-53.
fn turns(x: u64) -> u64
    requires { x ≤ 800 * 2 ^ 53 }
    ensures { result ≡ Reduction.turns x }
{
    let k = x / 14148475504056880;
    let odd = 2 * k + 1;
    let tie = odd * 7074237752028440 + odd * 310484850001344 / 1125899906842624;
    if tie < x { k + 1 } else { k }
}

// k * Pi / 2 in units of 2^-53, its whole part.
fn base(k: u64) -> u64
    requires { k ≤ 510 }
    ensures { result ≡ Reduction.base k }
{
    k * 14148475504056880 + k * 620969700002688 / 1125899906842624
}

// Nine more digits of it.
fn part(k: u64) -> u64
    requires { k ≤ 510 }
    ensures { result ≡ Reduction.part k }
{
    k * 620969700002688 / 2199023255552 % 512
}

// r * 2^-62, rounded.
fn rest_float(r: u64) -> f64
    ensures { result ≡ Reduction.rest_float r }
{
    std::num::nearest_u64_to_f64(r) * 2.168404344971009e-19
}

// An angle: k quarter turns less r where `below`, and plus r otherwise, r in radians. 510 quarter turns are more than
// 800 radians and more than 45,000 degrees. `below` is not the sign of r: the definitions `placed`, `turn_below` and
// `degree_below` have it beside r.
#[derive(Clone, Copy)]
pub struct Reduced {
    pub k: u64,
    pub below: bool,
    pub r: f64,
    pub ghost few: { k ≤ 510 },
}

// The angle a, from 0 to 800, with the nearest k.
pub fn turned(a: f64) -> Reduced
    requires { Reduction.Tame a }
    ensures { (result.k ≡ Reduction.turn_k a) × (result.below ≡ Reduction.turn_below a) × (result.r ≡ Reduction.turn_rest a) }
{
    if a <= FRAC_PI_4 {
        return Reduced {
            k: 0,
            below: false,
            r: a,
        };
    }
    let x = std::num::truncating_f64_to_u64(a * 9007199254740992.0);
    let k = turns(x);
    let b = base(k);
    let p = part(k);
    if x <= b {
        let r = rest_float((b - x) * 512 + p);
        return Reduced { k, below: true, r };
    }
    let r = rest_float((x - b) * 512 - p);
    Reduced { k, below: false, r }
}
