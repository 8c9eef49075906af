// Sine, cosine, arctangent and arccosine of document 01, and the sine and cosine of degrees. Each answers every
// argument, its contract names the answer and says what holds of it (specs/).
#![tactic(auto)]

ghost use Rattle.std.specs.Prelude.{◌≡◌};
ghost use Rattle.trig.specs.Waves as Waves;
ghost use Rattle.trig.specs.Degrees as Degrees;
ghost use Rattle.trig.specs.DegreeSteps as DegreeSteps;
ghost use Rattle.trig.specs.Arctangent as Arctangent;
ghost use Rattle.trig.specs.Arccosine as Arccosine;

mod bearing;
mod degrees;
mod reduction;
pub mod series;
mod tangent;
mod waves;

use crate::bearing::angle;
use crate::degrees::{pair_in_degrees, turnable};
use crate::waves::{cosine_value, pair_value, sine_value};
pub use waves::served;

#[derive(Clone, Copy)]
pub struct Pair {
    pub sine: f64,
    pub cosine: f64,
}

// The sine of x, for |x| <= 800.
pub fn sine(x: f64) -> Option<f64>
    ensures name { result ≡ Waves.sine_of x }
    ensures right { Waves.SineAnswer x result }
{
    served(x).then(|| sine_value(x))
}

// The cosine of x, for |x| <= 800.
pub fn cosine(x: f64) -> Option<f64>
    ensures name { result ≡ Waves.cosine_of x }
    ensures right { Waves.CosineAnswer x result }
{
    served(x).then(|| cosine_value(x))
}

// Both, from one reduction, and bit for bit what `sine` and `cosine` answer.
pub fn sine_cosine(x: f64) -> Option<Pair>
    ensures name { result ≡ Waves.paired (Waves.sine_of x) (Waves.cosine_of x) }
    ensures right { Waves.PairRight x result }
{
    served(x).then(|| pair_value(x))
}

// The sine and the cosine of an angle in degrees, for |x| <= 45,000: exactly +0.0, 1 or -1 at multiples of 90. Turning
// takes these; `sine_cosine` is for angles in radians.
pub fn of_degrees(x: f64) -> Option<Pair>
    ensures name { result ≡ DegreeSteps.degree_pair x }
    ensures right { Degrees.TurnRight x result }
{
    turnable(x).then(|| pair_in_degrees(x))
}

// The angle of the point (x, y): atan2.
pub fn arctangent(y: f64, x: f64) -> Option<f64>
    ensures name { result ≡ Arctangent.arctangent_of y x }
    ensures right { Arctangent.ArctangentAnswer y x result }
{
    (float::finite(y) && float::finite(x)).then(|| angle(y, x))
}

// Whether c is from -1 to 1, and so has an arccosine; by two comparisons, as `waves::served`. Not one function with `served` and `turnable` over the bound:
// each would still be a function with its name and definition, and a call in place of the two comparisons.
#[tactic(auto, unfolding(crate::specs::Arccosine::cosine_range))]
pub fn cosine_range(c: f64) -> bool
    ensures { result ≡ Arccosine.cosine_range c }
{
    c <= 1.0 && -1.0 <= c
}

// The angle from 0 to pi whose cosine is c. No `then`: what it lets through is an Option already, so that `flatten`
// would take off again what `then` puts on.
pub fn arccosine(c: f64) -> Option<f64>
    ensures name { result ≡ Arccosine.arccosine_of c }
    ensures right { Arccosine.ArccosineAnswer c result }
{
    if cosine_range(c) {
        let y = root::root((1.0 - c) * (1.0 + c));
        arctangent(y, c)
    } else {
        None
    }
}
