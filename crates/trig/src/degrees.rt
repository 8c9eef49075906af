// Sine and cosine of an angle in degrees (specs/Degrees.antt): quarter turns are taken off exactly, in whole numbers.
ghost use Rattle.std.specs.Prelude.{◌≡◌, ℕ, ◌*◌, ◌^◌, ◌≤◌, true};
ghost use Rattle.trig.specs.Degrees as Degrees;
ghost use Rattle.trig.specs.DegreeSteps as DegreeSteps;

use crate::Pair;
use crate::reduction::Reduced;
use crate::waves::signed;

// 90 and 45 degrees in units of 2^-47 degrees: from 45 degrees on every double is a whole number of them.
const QUARTER_TURN: u64 = 12666373951979520;

const EIGHTH_TURN: u64 = 6333186975989760;

// Whether |x| <= 45,000, and x so has a turn. By two comparisons: as `served`.
#[tactic(auto, unfolding(crate::specs::Degrees::turnable))]
pub fn turnable(x: f64) -> bool
    ensures { result ≡ Degrees.turnable x }
{
    x <= 45000.0 && -45000.0 <= x
}

// The whole number nearest to x / 90 degrees, a half up, for x in units of 2^-47 degrees.
fn quarter_turns(x: u64) -> u64
    requires { x ≤ 45000 * 2 ^ 47 }
    ensures { result ≡ DegreeSteps.quarter_turns x }
{
    (x + EIGHTH_TURN) / QUARTER_TURN
}

// r * 2^-47 degrees in radians: the product with 2^-47 is exact, so this rounds once.
fn radians_of(r: u64) -> f64
    requires { r ≤ 2 ^ 53 }
    ensures { result ≡ DegreeSteps.radians_of r }
{
    float::to_radians((r as f64) * 7.105427357601002e-15)
}

// The angle a, from 0 to 45,000 degrees, with the nearest k: k * 90 degrees less r where `below`, and plus r otherwise,
// r in radians. Below 45 degrees k is 0, and the angle needs no units.
fn reduced(a: f64) -> Reduced
    requires { DegreeSteps.UpToWidest a }
    ensures { (result.k ≡ DegreeSteps.degree_k a) × (result.below ≡ DegreeSteps.degree_below a) × (result.r ≡ DegreeSteps.degree_rest a) }
{
    if a < 45.0 {
        let r = float::to_radians(a);
        return Reduced {
            k: 0,
            below: false,
            r,
        };
    }
    let x = std::num::truncating_f64_to_u64(a * 140737488355328.0);
    let k = quarter_turns(x);
    let b = k * QUARTER_TURN;
    if x < b {
        let r = radians_of(b - x);
        return Reduced { k, below: true, r };
    }
    let r = radians_of(x - b);
    Reduced { k, below: false, r }
}

// Both, of an angle up to 45,000 degrees. `+ 0.0` makes a -0.0 a +0.0, at 180 degrees say, and changes nothing else.
// Not one function with `pair_value`: the two differ in the answer at a zero, the reduction and the `+ 0.0`, and what
// they share is `waves`.
pub fn pair_in_degrees(x: f64) -> Pair
    requires { Degrees.turnable x ≡ true }
    ensures { (result.sine ≡ DegreeSteps.sine_degrees x) × (result.cosine ≡ DegreeSteps.cosine_degrees x) }
{
    if x == 0.0 {
        return Pair {
            sine: 0.0,
            cosine: 1.0,
        };
    }
    let a = signed(x, x < 0.0);
    let p = reduced(a).waves();
    Pair {
        sine: signed(p.sine, x < 0.0) + 0.0,
        cosine: p.cosine + 0.0,
    }
}
