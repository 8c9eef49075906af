// The chain check, the size check, and what every call's list of checks is made of. A check answers; a list of checks
// answers with its first refusal.
ghost use Rattle.std.specs.Prelude.{◌≡◌, true, false, cond, eqb, MatchOption};
ghost use Rattle.chain.specs.Check as S;

use crate::{Joints, Kinematics, RotaryJoint, RotaryLimits};
use geometry::Vec3;
use refusal::{Cause, Refusal};

// Ok where `ok`, else refused with that cause and place.
pub fn demand(ok: bool, cause: Cause, at: u64) -> Result<(), Refusal>
    ensures { result ≡ S.demand ok cause at }
{
    if ok {
        return Ok(());
    }
    Err(Refusal::new(cause, at))
}

impl RotaryLimits {
    // Whether the angle lies within, ends included: by two comparisons, as the definition has it, since `contains` of a
    // range has a flag besides and the check does not find it.
    #[tactic(auto, unfolding(crate::specs::Check::contains))]
    pub fn contains(self, angle: f64) -> bool
        ensures { result ≡ S.contains self angle }
    {
        self.min <= angle && angle <= self.max
    }
}

impl Kinematics {
    // The second rotary, where the count says that there is one.
    pub fn second_rotary(&self) -> Option<RotaryJoint>
        ensures { MatchOption result (eqb self.now.count 2 ≡ false) (λ j. (eqb self.now.count 2 ≡ true) × (j ≡ self.now.second)) }
    {
        (self.count == 2).then_some(self.second)
    }
}

// Two finite numbers, the first below the second.
#[tactic(auto, unfolding(crate::specs::Check::travel_good))]
pub fn travel_good(travel: Option<RotaryLimits>) -> bool
    ensures { result ≡ S.travel_good travel }
{
    travel.is_none_or(|l| float::finite(l.min) && float::finite(l.max) && l.min < l.max)
}

pub fn has_direction(v: Vec3) -> bool
    ensures { result ≡ S.has_direction v }
{
    geometry::unit_direction(v).is_some()
}

// A, B or C.
#[tactic(auto, unfolding(crate::specs::Check::known_letter))]
pub fn known_letter(letter: u8) -> bool
    ensures { result ≡ S.known_letter letter }
{
    matches!(letter, b'A'..=b'C')
}

// Not that of the rotary before it, where there is one.
pub fn other_letter(letter: u8, earlier: Option<u8>) -> bool
    ensures { result ≡ S.other_letter letter earlier }
{
    earlier.is_none_or(|e| letter != e)
}

// One rotary, whole. `earlier` is the letter of the rotary before it.
#[tactic(auto, unfolding(crate::specs::Check::rotary_check))]
fn rotary_check(j: RotaryJoint, earlier: Option<u8>, index: u64) -> Result<(), Refusal>
    ensures { result ≡ S.rotary_check j earlier index }
{
    demand(known_letter(j.letter), Cause::RotaryLetter, index)?;
    demand(other_letter(j.letter, earlier), Cause::LetterTwice, index)?;
    demand(geometry::all_finite(j.axis), Cause::ChainNotFinite, index)?;
    demand(has_direction(j.axis), Cause::RotaryAxisZero, index)?;
    demand(geometry::all_finite(j.pivot), Cause::ChainNotFinite, index)?;
    demand(travel_good(j.limits), Cause::LimitsRefused, index)?;
    demand(float::finite(j.rest), Cause::ChainNotFinite, index)
}

#[tactic(auto, unfolding(crate::specs::Check::second_check))]
fn second_check(k: &Kinematics) -> Result<(), Refusal>
    ensures { result ≡ S.second_check k.now }
{
    match k.second_rotary() {
        Some(j) => rotary_check(j, Some(k.first.letter), 1),
        None => Ok(()),
    }
}

#[tactic(auto, unfolding(crate::specs::Check::one_or_two))]
pub fn one_or_two(count: u8) -> bool
    ensures { result ≡ S.one_or_two count }
{
    matches!(count, 1 | 2)
}

// The chain check of the Rust, but for name and model.
#[tactic(auto, unfolding(crate::specs::Check::chain_check))]
pub fn chain_check(k: &Kinematics) -> Result<(), Refusal>
    ensures { result ≡ S.chain_check k.now }
{
    demand(one_or_two(k.count), Cause::RotaryCount, 0)?;
    rotary_check(k.first, None, 0)?;
    second_check(k)?;
    demand(
        geometry::all_finite(k.spindle_axis),
        Cause::ChainNotFinite,
        0,
    )?;
    demand(has_direction(k.spindle_axis), Cause::SpindleZero, 0)
}

// No more than the limit in size.
#[tactic(auto, unfolding(crate::specs::Check::within))]
pub fn within(x: f64, limit: f64) -> bool
    ensures { result ≡ S.within x limit }
{
    float::size(x) <= limit
}

#[tactic(auto, unfolding(crate::specs::Check::all_within))]
pub fn all_within(v: Vec3, limit: f64) -> bool
    ensures { result ≡ S.all_within v limit }
{
    within(v.x, limit) && within(v.y, limit) && within(v.z, limit)
}

// The pivot and the rest angle of a rotary.
#[tactic(auto, unfolding(crate::specs::Check::rotary_within))]
fn rotary_within(j: RotaryJoint) -> bool
    ensures { result ≡ S.rotary_within j }
{
    all_within(j.pivot, 100000.0) && within(j.rest, 36000.0)
}

// Those of the rotaries that the chain has.
#[tactic(auto, unfolding(crate::specs::Check::chain_within))]
pub fn chain_within(k: &Kinematics) -> bool
    ensures { result ≡ S.chain_within k.now }
{
    rotary_within(k.first) && k.second_rotary().is_none_or(rotary_within)
}

#[tactic(auto, unfolding(crate::specs::Check::chain_sizes))]
pub fn chain_sizes(k: &Kinematics) -> Result<(), Refusal>
    ensures { result ≡ S.chain_sizes k.now }
{
    demand(chain_within(k), Cause::TooLarge, 0)
}

// All five numbers, the unused angle too.
#[tactic(auto, unfolding(crate::specs::Check::joints_finite))]
pub fn joints_finite(j: Joints) -> bool
    ensures { result ≡ S.joints_finite j }
{
    geometry::all_finite(j.xyz) && float::finite(j.a0) && float::finite(j.a1)
}

// Positions within 10,000,000, both angles within 36,000.
#[tactic(auto, unfolding(crate::specs::Check::joints_within))]
pub fn joints_within(j: Joints) -> bool
    ensures { result ≡ S.joints_within j }
{
    all_within(j.xyz, 10000000.0) && within(j.a0, 36000.0) && within(j.a1, 36000.0)
}
