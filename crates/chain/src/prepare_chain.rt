// A checked chain with its axes normalised, made once for a call.
ghost use Rattle.std.specs.Prelude.{◌≡◌};
ghost use Rattle.chain.specs.Doubles.{ChainFits};
ghost use Rattle.chain.specs.Prepared as S;

use crate::{Kinematics, Prepared, RotaryJoint, Spin};
use geometry::unit_or;

// An axis without a direction, which a checked chain has not, stays as it is.
#[tactic(auto, unfolding(crate::specs::Prepared::unit_axis, crate::specs::Prepared::spin_of))]
fn spin_of(j: RotaryJoint) -> Spin
    ensures { result ≡ S.spin_of j }
{
    Spin {
        carrier: j.carrier,
        axis: unit_or(j.axis, j.axis),
        pivot: j.pivot,
    }
}

#[tactic(auto, unfolding(crate::specs::Prepared::second_spin))]
fn second_spin(k: &Kinematics) -> Option<Spin>
    ensures { result ≡ S.second_spin k.now }
{
    k.second_rotary().map(spin_of)
}

// What is handed over by value is of doubles, and of what a reference points to a proof knows no such thing. So who has a
// chain by reference and needs it hands the chain over here. Nothing is done, and the compiler leaves the copy out.
pub fn chain_fits(k: Kinematics)
    ensures { ChainFits k }
{}

#[tactic(auto, unfolding(crate::specs::Prepared::unit_axis, crate::specs::Prepared::prepared))]
pub fn prepare(k: &Kinematics) -> Prepared
    ensures { result ≡ S.prepared k.now }
{
    Prepared {
        first: spin_of(k.first),
        second: second_spin(k),
        spindle: unit_or(k.spindle_axis, k.spindle_axis),
    }
}
