// Sine and cosine of an angle of at most 800 (specs/Waves.antt).
ghost use Rattle.std.specs.Prelude.{◌≡◌, ℕ, ◌+◌, ◌%◌, ◌≤◌, Bool, true, false, if◌then◌else◌};
ghost use Rattle.std.specs.Float.Ieee.{neg};
ghost use Rattle.trig.specs.Kernel.{sine_kernel, cosine_kernel};
ghost use Rattle.trig.specs.Waves as Waves;

use crate::Pair;
use crate::reduction::{Reduced, turned};
use crate::series::{cosine_kernel, sine_kernel};

// Whether |x| <= 800, and x so has a sine and a cosine. By two comparisons, as the definition has it: `contains` of a
// range asks for the lower end first and has a flag besides, so that the check does not find it (tried in `turnable`).
#[tactic(auto, unfolding(crate::specs::Waves::served))]
pub fn served(x: f64) -> bool
    ensures { result ≡ Waves.served x }
{
    x <= 800.0 && -800.0 <= x
}

// y, or -y. Where a sine is asked the size of x is this too, and not `float::size`: the same test signs the answer.
pub fn signed(y: f64, s: bool) -> f64
    ensures { result ≡ (if s then neg y else y) }
{
    if s { -y } else { y }
}

// s, -s, c or -c by k modulo 4. Tried as a `match` on k % 4, as the definition has it: the sine and cosine of degrees
// took 43.5 ns, not 41.5.
fn place(k: u64, below: bool, s: f64, c: f64) -> f64
    ensures { result ≡ Waves.placed (k % 4) below s c }
{
    if k % 2 == 0 {
        let y = signed(s, below);
        signed(y, k % 4 == 2)
    } else {
        signed(c, k % 4 == 3)
    }
}

// Inlined both: out of line an angle of three numbers goes through memory, and the pair takes 42.4 ns, not 38.1.
impl Reduced {
    // The sine of the angle and `more` quarter turns: one of the two sums.
    #[inline(always)]
    fn wave(self, more: u64) -> f64
        requires { more ≤ 1 }
        ensures { result ≡ Waves.placed ((self.k + more) % 4) self.below (sine_kernel self.r) (cosine_kernel self.r) }
    {
        let k = self.k + more;
        if k % 2 == 0 {
            let s = sine_kernel(self.r);
            place(k, self.below, s, s)
        } else {
            let c = cosine_kernel(self.r);
            place(k, self.below, c, c)
        }
    }

    // That of no quarter turn and of one: the sine and the cosine.
    #[inline(always)]
    pub fn waves(self) -> Pair
        ensures { (result.sine ≡ Waves.placed (self.k % 4) self.below (sine_kernel self.r) (cosine_kernel self.r)) × (result.cosine ≡ Waves.placed ((self.k + 1) % 4) self.below (sine_kernel self.r) (cosine_kernel self.r)) }
    {
        let s = sine_kernel(self.r);
        let c = cosine_kernel(self.r);
        let sine = place(self.k, self.below, s, c);
        let cosine = place(self.k + 1, self.below, s, c);
        Pair { sine, cosine }
    }
}

// That x is served stands in three contracts, and is tested once before each, by the public functions: a type for it
// would be made for one call. Not `pair_value(x).sine`, nor is the cosine below its other half: for one of the two it
// would sum both series.
pub fn sine_value(x: f64) -> f64
    requires { Waves.served x ≡ true }
    ensures { result ≡ Waves.sine_float x }
{
    if x == 0.0 {
        return x;
    }
    let a = signed(x, x < 0.0);
    let y = turned(a).wave(0);
    signed(y, x < 0.0)
}

pub fn cosine_value(x: f64) -> f64
    requires { Waves.served x ≡ true }
    ensures { result ≡ Waves.cosine_float x }
{
    if x == 0.0 {
        return 1.0;
    }
    turned(float::size(x)).wave(1)
}

pub fn pair_value(x: f64) -> Pair
    requires { Waves.served x ≡ true }
    ensures { (result.sine ≡ Waves.sine_float x) × (result.cosine ≡ Waves.cosine_float x) }
{
    if x == 0.0 {
        return Pair {
            sine: x,
            cosine: 1.0,
        };
    }
    let a = signed(x, x < 0.0);
    let p = turned(a).waves();
    Pair {
        sine: signed(p.sine, x < 0.0),
        ..p
    }
}
