// The unit vector of a direction, where there is one.
ghost use Rattle.std.specs.Prelude.{◌≡◌};
ghost use Rattle.geometry.specs.Direction as S;

use crate::Vec3;
use crate::vector::norm;

// Every component is finite.
#[tactic(auto, unfolding(crate::specs::Direction::all_finite))]
pub fn all_finite(v: Vec3) -> bool
    ensures { result ≡ S.all_finite v }
{
    float::finite(v.x) && float::finite(v.y) && float::finite(v.z)
}

// No component is more than 1e-15 in size.
#[tactic(auto, unfolding(crate::specs::Direction::tiny))]
fn tiny(v: Vec3) -> bool
    ensures { result ≡ S.tiny v }
{
    float::size(v.x) <= 1e-15 && float::size(v.y) <= 1e-15 && float::size(v.z) <= 1e-15
}

// v by its length.
fn with_length(v: Vec3, len: f64) -> Option<Vec3>
    ensures { result ≡ S.with_length v len }
{
    (float::finite(len) && len != 0.0).then(|| v * (1.0 / len))
}

// None for a component that is not finite, for a vector of which no component is above 1e-15 in size, and for a length
// that overflows.
pub fn unit_direction(v: Vec3) -> Option<Vec3>
    ensures { result ≡ S.unit_direction v }
{
    if !all_finite(v) {
        return None;
    }
    if tiny(v) {
        return None;
    }
    with_length(v, norm(v))
}

// The unit vector of v, or `fallback` where there is none.
pub fn unit_or(v: Vec3, fallback: Vec3) -> Vec3
    ensures { result ≡ S.unit_or v fallback }
{
    unit_direction(v).unwrap_or(fallback)
}
