// IEEE 754's square root of every f64 without a machine's: a guess by floats, confirmed exactly in 64 bits, with the
// root of a whole number behind it. Nothing is promised of the guess, so any better one can take its place.
ghost use Rattle.std.specs.Prelude.{◌≡◌, ◌+◌, ◌*◌, ◌/◌, ◌%◌, ◌^◌, ◌<◌, ◌≤◌, true, from_bits, to_bits};
ghost use Rattle.std.specs.Float.Ieee.{lt};
ghost use Rattle.std.specs.Float.{binary64};
ghost use Rattle.root.specs.RootSteps.{WholeRoot, Nearby, Confirmed, PartsRoot, ScaledRoot, Normal};
ghost use Rattle.root.specs.Root as S;

// The largest s with s * s <= h.
fn whole_root(h: u64) -> u64
    ensures { WholeRoot h result }
{
    if h == 0 {
        0
    } else {
        let p = 2 * whole_root(h / 4);
        if (p + 1) * (p + 1) <= h { p + 1 } else { p }
    }
}

// A Newton step for the reciprocal root of 2 g, at y: no promise.
fn newton(g: f64, y: f64) -> f64 {
    y * (1.5 - g * (y * y))
}

// The same at the first guess y, of f itself, with the two numbers that make the error least: no promise.
fn first_step(f: f64, y: f64) -> f64 {
    y * (1.6819140909799934 - 0.703952253 * f * (y * y))
}

// The largest s with s * s <= h * 2^44, for h from 2^62 up.
fn root54(h: u64) -> u64
    requires { 2 ^ 62 ≤ h }
    ensures { WholeRoot (h * 2 ^ 44) result }
{
    let s = whole_root(h);
    let n = (h - s * s) * 4194304;
    let q = n / (2 * s);
    let u = n % (2 * s);
    let t = s * 4194304 + q;
    if q * q <= u * 4194304 { t } else { t - 1 }
}

// A guess at the root of the float from 1 up to 4 whose bits are b: no promise.
fn estimate(b: u64) -> f64
    requires { b < 4616189618054758400 }
{
    let f = f64::from_bits(b);
    let g = 0.5 * f;
    let y = newton(
        g,
        first_step(f, f64::from_bits(6909647724535087104 - b / 2)),
    );
    let z = f * y;
    let e = 0.5 - g * y * y;
    z + z * e * (1.0 + 1.5 * e)
}

// The digits and the exponent of a normal value above zero: m * 2^(f - 65) units of 2^-1074.
#[derive(Clone, Copy)]
struct Parts {
    m: u64,
    f: u64,
    ghost normal: { (4503599627370496 ≤ m) × (m < 9007199254740992) × (1 ≤ f) × (f ≤ 2200) },
}

// Those of x * 2^(shift - 64), for a normal x above zero.
fn apart(x: f64, shift: u64) -> Parts
    requires { (Normal x) × (shift ≤ 64) }
    ensures { (result.m ≡ to_bits binary64 x % 4503599627370496 + 4503599627370496) × (result.f ≡ to_bits binary64 x / 4503599627370496 + shift) }
{
    let b = x.to_bits();
    let f = b / 4503599627370496 + shift;
    let m = b % 4503599627370496 + 4503599627370496;
    Parts { m, f }
}

impl Parts {
    // The nearest to the root of m * 2^(52 + odd) among q and its two neighbours, where one of them is it:
    // m * (1 + odd) * 2^52 + p = q * q + l.
    fn confirmed(self, q: u64) -> Option<u64>
        ensures { Confirmed self.m ((self.f + 1) % 2) result }
    {
        if 9007199254740992 < q {
            return None;
        }
        let a = q / 67108864;
        let b = q % 67108864;
        let odd = (self.f + 1) % 2;
        let h = self.m * (1 + odd) + 8;
        let k = a * a;
        if h < k {
            return None;
        }
        let r = h - k;
        if 2147483648 <= r {
            return None;
        }
        let t = r * 33554432;
        let w = a * b;
        if t < w {
            return None;
        }
        let u = t - w;
        if 68719476736 <= u {
            return None;
        }
        let l = u * 134217728;
        let p = b * b + 36028797018963968;
        if p + q < l {
            (l <= p + 3 * q + 2).then(|| q + 1)
        } else if p < l + q {
            Some(q)
        } else {
            (p + 2 < l + 3 * q).then(|| q - 1)
        }
    }

    // The nearest whole number to the root of m * 2^(52 + odd), where no guess was confirmed.
    fn sure_digits(self) -> u64
        ensures { Nearby (self.m * (1 + (self.f + 1) % 2) * 2 ^ 52) result }
    {
        let odd = (self.f + 1) % 2;
        (root54(self.m * (1024 + 1024 * odd)) + 1) / 2
    }

    // The root, rounded, of which the digits are q.
    fn root(self, q: u64) -> f64
        requires { Nearby (self.m * (1 + (self.f + 1) % 2) * 2 ^ 52) q }
        ensures { PartsRoot self.m self.f result }
    {
        let e = (self.f + 957) / 2;
        f64::from_bits(e * 4503599627370496 + q)
    }

    // The root, rounded: the sure way, out of the quick one's way.
    #[cold]
    fn sure_root(self) -> f64
        ensures { PartsRoot self.m self.f result }
    {
        self.root(self.sure_digits())
    }
}

// The root of x, rounded, for a normal x above zero.
fn normal_root(x: f64) -> f64
    requires { Normal x }
    ensures { ScaledRoot x 64 result }
{
    let b = x.to_bits();
    let p = apart(x, 64);
    let guess = estimate((b + 4503599627370496) % 9007199254740992 + 4607182418800017408);
    if guess.is_nan() {
        return p.sure_root();
    }
    let digits = guess.to_bits().wrapping_sub(4602678819172646912);
    match p.confirmed(digits) {
        Some(q) => p.root(q),
        None => p.sure_root(),
    }
}

// The root of what is below the least normal value.
fn small_root(x: f64) -> f64
    requires { lt x (from_bits binary64 4503599627370496) ≡ true }
    ensures { result ≡ S.root x }
{
    if x == 0.0 {
        return x;
    }
    if x < 0.0 {
        return f64::NAN;
    }
    apart(x * 18014398509481984.0, 10).sure_root()
}

// The square root of any f64, correctly rounded.
pub fn root(x: f64) -> f64
    ensures { result ≡ S.root x }
{
    if x < f64::MIN_POSITIVE {
        return small_root(x);
    }
    if x < f64::INFINITY {
        return normal_root(x);
    }
    x
}

// The same, and quick for what lies within 2^25 of the last place of 1, as a unit vector's square does. By two
// comparisons: tried by `matches!`, where the proof finds neither of the two bounds under a name of the source.
pub fn quick_root(x: f64) -> f64
    ensures { result ≡ S.root x }
{
    if x.is_nan() {
        return x;
    }
    let b = x.to_bits();
    if 4607182418766462976 <= b && b < 4607182418833571840 {
        return f64::from_bits((b + 4607182418800017408) / 2);
    }
    root(x)
}
