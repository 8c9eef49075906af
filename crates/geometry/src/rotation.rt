// Turning by Rodrigues' formula, about a unit axis, by the sine and cosine of the angle. A turn comes from degrees by
// `Turn::of`; turning back is the turn of the negated degrees, and each gives the other by its sine negated.
ghost use Rattle.std.specs.Prelude.{◌≡◌};
ghost use Rattle.geometry.specs.Turn as S;

use crate::vector::{cross, dot};
use crate::{Turn, Vec3};

impl Turn {
    // The turn that stands still: that of +0.0 degrees, and of a rotary that is not there or does not move.
    pub fn still() -> Turn
        ensures { result ≡ S.still }
    {
        Turn {
            sine: 0.0,
            cosine: 1.0,
        }
    }

    // By that many degrees, right-handed. Beyond 45,000 degrees, and for a NaN, it is no turn at all. No entry comes to
    // that: the files NeverFallback.antt of chain, inverse, path and divide prove it. No `From<trig::Pair>`: no other
    // turn is made of a pair.
    pub fn of(degrees: f64) -> Turn
        ensures { result ≡ S.turn_of degrees }
    {
        let Some(p) = trig::of_degrees(degrees) else {
            return Turn::still();
        };
        Turn {
            sine: p.sine,
            cosine: p.cosine,
        }
    }

    // By as many degrees forth, from the turn back: with no sine or cosine made anew.
    pub fn turned_back(self) -> Turn
        ensures { result ≡ S.turned_back self }
    {
        Turn {
            sine: 0.0 - self.sine,
            ..self
        }
    }
}

pub fn rotate_vector(axis: Vec3, v: Vec3, turn: Turn) -> Vec3
    ensures { result ≡ S.rotate_vector axis v turn }
{
    let along = dot(axis, v);
    let crossed = cross(axis, v);
    v * turn.cosine + crossed * turn.sine + axis * (along * (1.0 - turn.cosine))
}

pub fn rotate_point(axis: Vec3, pivot: Vec3, point: Vec3, turn: Turn) -> Vec3
    ensures { result ≡ S.rotate_point axis pivot point turn }
{
    pivot + rotate_vector(axis, point - pivot, turn)
}
