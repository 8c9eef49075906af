// The turn by a whole number of half degrees, from the table.
ghost use Rattle.std.specs.Prelude.{◌≡◌, ◌≤◌};
ghost use Rattle.hirth.specs.Turning as S;

use crate::teeth::entries;
use geometry::Turn;

// An entry of the table as a number: times 2^-52, exactly.
fn unscaled(entry: u64) -> f64
    requires { entry ≤ 9007199254740992 }
    ensures { result ≡ S.unscaled entry }
{
    (entry as f64) * 2.220446049250313e-16
}

// The sine of an angle and q quarter turns, from the angle's sine and cosine.
#[tactic(auto, unfolding(crate::specs::Turning::quartered))]
fn quartered(q: u64, sine: f64, cosine: f64) -> f64
    ensures { result ≡ S.quartered q sine cosine }
{
    match q {
        0 => sine,
        1 => cosine,
        2 => -sine,
        _ => -cosine,
    }
}

// By h half degrees.
fn half_turns(h: u64) -> Turn
    ensures { result ≡ S.half_turns h }
{
    let n = h % 720;
    let q = n / 180;
    let e = entries((n % 180) as usize);
    let s = unscaled(e.sine);
    let c = unscaled(e.cosine);
    let sine = quartered(q, s, c);
    let cosine = quartered((q + 1) % 4, s, c);
    Turn { sine, cosine }
}

// The turn, or the turn back where `below`, with no -0.0 in it.
#[tactic(auto, unfolding(crate::specs::Turning::toward))]
fn toward(t: Turn, below: bool) -> Turn
    ensures { result ≡ S.toward t below }
{
    let sine = if below { -t.sine } else { t.sine };
    Turn {
        sine: sine + 0.0,
        cosine: t.cosine + 0.0,
    }
}

// By an angle that stands on a tooth. Beyond 45,000 degrees, and for a NaN, it is no turn at all: no solution goes so
// far (proofs/Chosen.antt).
pub fn tooth_turn(a: f64) -> Turn
    ensures { result ≡ S.tooth_turn a }
{
    if a == 0.0 {
        return Turn::still();
    }
    let x = a * 2.0;
    if !chain::within(x, 90000.0) {
        return Turn::still();
    }
    let h = std::num::truncating_f64_to_u64(float::size(x));
    let t = half_turns(h);
    toward(t, a < 0.0)
}
