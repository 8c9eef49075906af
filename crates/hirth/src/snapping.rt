// The nearest tooth.
ghost use Rattle.std.specs.Prelude.{◌≡◌};
ghost use Rattle.hirth.specs.Snapping as S;

use chain::Joints;
use inverse::Angles;

// The nearest half degree, a half away from zero, a zero as +0.0.
fn snap(angle: f64) -> f64
    ensures { result ≡ S.snapped angle }
{
    float::round(angle * 2.0) * 0.5 + 0.0
}

// Both angles of a solution. The unused angle of a chain of one rotary is +0.0, and stays.
#[tactic(auto, unfolding(crate::specs::Snapping::snapped_angles))]
pub fn snapped_angles(j: Joints) -> Angles
    ensures { result ≡ S.snapped_angles j }
{
    let a0 = snap(j.a0);
    let a1 = snap(j.a1);
    Angles { a0, a1 }
}
