// Only for tests: functions under C names that the static library does not export, so that the Rust in oracle/ can call
// what was proved and hold it to the standard library and to document 01: those of `float`, `sine_cosine` and
// `of_degrees` of `trig`, and the inner form of `chain`'s forward. Nothing else may be built on it.
#![tactic(auto)]

mod forwards;

ghost use Rattle.std.specs.Prelude.{◌≡◌};
ghost use Rattle.std.specs.Float.Ieee.Scale.{finite as is_finite};
ghost use Rattle.float.specs.Helpers as S;
ghost use Rattle.float.specs.TotalOrder as Total;
ghost use Rattle.root.specs.Root as Root;
ghost use Rattle.trig.specs.Waves as Waves;
ghost use Rattle.trig.specs.DegreeSteps as DegreeSteps;
ghost use Rattle.probe.specs.Answers.{number, roots_over, pair_number, sine_over, cosine_over};

use refusal::Cause;
use std::cmp::Ordering;
use trig::Pair;

#[unsafe(no_mangle)]
pub extern "C" fn probe_finite(x: f64) -> bool
    ensures { result ≡ is_finite x }
{
    float::finite(x)
}

#[unsafe(no_mangle)]
pub extern "C" fn probe_size(x: f64) -> f64
    ensures { result ≡ S.size_of x }
{
    float::size(x)
}

#[unsafe(no_mangle)]
pub extern "C" fn probe_round(x: f64) -> f64
    ensures { result ≡ S.round_half_away x }
{
    float::round(x)
}

#[unsafe(no_mangle)]
pub extern "C" fn probe_clamp_unit(x: f64) -> f64
    ensures { result ≡ S.clamp_unit x }
{
    float::clamp_unit(x)
}

#[unsafe(no_mangle)]
pub extern "C" fn probe_to_radians(degrees: f64) -> f64
    ensures { result ≡ S.to_radians degrees }
{
    float::to_radians(degrees)
}

#[unsafe(no_mangle)]
pub extern "C" fn probe_to_degrees(radians: f64) -> f64
    ensures { result ≡ S.to_degrees radians }
{
    float::to_degrees(radians)
}

#[unsafe(no_mangle)]
pub extern "C" fn probe_root(x: f64) -> f64
    ensures { result ≡ Root.root x }
{
    root::root(x)
}

#[unsafe(no_mangle)]
pub extern "C" fn probe_order_key(x: f64) -> u64
    ensures { result ≡ Total.order_key x }
{
    float::order_key(x)
}

#[unsafe(no_mangle)]
pub extern "C" fn probe_minimum(x: f64, y: f64) -> f64
    ensures { result ≡ S.minimum x y }
{
    float::minimum(x, y)
}

#[unsafe(no_mangle)]
pub extern "C" fn probe_maximum(x: f64, y: f64) -> f64
    ensures { result ≡ S.maximum x y }
{
    float::maximum(x, y)
}

// An enum does not cross to C: 0 less, 1 equal, 2 greater.
#[unsafe(no_mangle)]
pub extern "C" fn probe_total_cmp(x: f64, y: f64) -> u32
    ensures { result ≡ number (Total.total_compare x y) }
{
    match float::total_cmp(x, y) {
        Ordering::Less => 0,
        Ordering::Equal => 1,
        Ordering::Greater => 2,
    }
}

// The root of each of xs, written to answers as far as both reach. By index: tried with `zip`, under which the loop's
// invariant can name what is left to write and to read, but not the answers that are written.
#[unsafe(no_mangle)]
pub extern "C" fn probe_roots(xs: &[f64], answers: &mut [f64])
    ensures { answers.new ≡ roots_over xs.now answers.old }
{
    let n = xs.len().min(answers.len());
    for (i, answer) in answers[..n].iter_mut().enumerate() {
        *answer = root::root(xs[i]);
    }
}

// Both of an angle in radians, from one reduction: 0 and both written, or 17 and both kept.
#[unsafe(no_mangle)]
pub extern "C" fn probe_sine_cosine(x: f64, sine: &mut f64, cosine: &mut f64) -> u32
    ensures number { result ≡ pair_number (Waves.paired (Waves.sine_of x) (Waves.cosine_of x)) }
    ensures sine { sine.new ≡ sine_over (Waves.paired (Waves.sine_of x) (Waves.cosine_of x)) sine.old }
    ensures cosine { cosine.new ≡ cosine_over (Waves.paired (Waves.sine_of x) (Waves.cosine_of x)) cosine.old }
{
    hand_over(trig::sine_cosine(x), sine, cosine)
}

// Both of an angle in degrees, by which a turn is made: 0 and both written, or 17 and both kept.
#[unsafe(no_mangle)]
pub extern "C" fn probe_turn(x: f64, sine: &mut f64, cosine: &mut f64) -> u32
    ensures number { result ≡ pair_number (DegreeSteps.degree_pair x) }
    ensures sine { sine.new ≡ sine_over (DegreeSteps.degree_pair x) sine.old }
    ensures cosine { cosine.new ≡ cosine_over (DegreeSteps.degree_pair x) cosine.old }
{
    hand_over(trig::of_degrees(x), sine, cosine)
}

// 0 and both written, or 17 and both kept.
fn hand_over(pair: Option<Pair>, sine: &mut f64, cosine: &mut f64) -> u32
    ensures number { result ≡ pair_number pair }
    ensures sine { sine.new ≡ sine_over pair sine.old }
    ensures cosine { cosine.new ≡ cosine_over pair cosine.old }
{
    match pair {
        Some(both) => {
            *sine = both.sine;
            *cosine = both.cosine;
            0
        }
        None => Cause::TooLarge.number(),
    }
}
