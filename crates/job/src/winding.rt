// The cable number of a rotary on a path: how many whole turns its cable is wound at most, from the angle at which it
// hangs free. The term is that of documents 01 and 02.
ghost use Rattle.std.specs.Prelude.{◌/◌, ◌≡◌, length};
ghost use Rattle.std.specs.List.{fold};
ghost use Rattle.std.specs.Simd.{first_chunks};
ghost use Rattle.turn.specs.Items.{joints_in};
ghost use Rattle.job.specs.Cable as S;

use crate::Survey;
use chain::{Joints, Kinematics, demand};
use refusal::{Cause, Refusal};

// The whole turns in a wind of at most 72,000 degrees; of any other, which no path has that a check lets by, none.
#[tactic(auto, using(crate::proofs::Turns::in_range, crate::proofs::Turns::turns_counted), unfolding(crate::specs::Cable::turns_within))]
fn turns_within(wind: f64) -> u64
    ensures { result ≡ S.turns_within wind }
{
    if chain::within(wind, 72000.0) {
        let size = float::size(wind);
        return std::num::truncating_f64_to_u64(size) / 360;
    }
    0
}

#[tactic(auto, unfolding(crate::specs::Cable::rest_of))]
fn rest_of(k: &Kinematics, rotary: usize) -> f64
    ensures { result ≡ S.rest_of k.now rotary }
{
    if rotary == 0 {
        k.first.rest
    } else {
        k.second.rest
    }
}

// One joint set more.
fn surveyed(rest: f64, rotary: usize, s: Survey, j: Joints) -> Survey
    ensures { result ≡ S.surveyed rest rotary s j }
{
    let wind = j.angle(rotary) - rest;
    Survey {
        finite: s.finite && chain::joints_finite(j),
        within: s.within && chain::joints_within(j),
        turns: s.turns.max(turns_within(wind)),
    }
}

// Over chunks, of which `chunks_surveyed` says that they are the joint sets.
fn surveyed_by(rest: f64, rotary: usize, s: Survey, joints: &[f64]) -> Survey
    ensures { result ≡ fold (λ s c. S.surveyed rest rotary s (joints_in c 0)) s (first_chunks 5 (length joints.now / 5) joints.now) }
{
    let (sets, _) = joints.as_chunks::<5>();
    sets.iter().fold(
        s,
        |s, set| surveyed(rest, rotary, s, turn::joints_in(set, 0)),
    )
}

fn survey(rest: f64, rotary: usize, joints: &[f64]) -> Survey
    ensures { result ≡ S.survey rest rotary (S.joint_sets joints.now) }
{
    let unread = Survey {
        finite: true,
        within: true,
        turns: 0,
    };
    surveyed_by(rest, rotary, unread, joints)
}

#[tactic(auto, unfolding(crate::specs::Cable::cable_sizes))]
fn cable_sizes(k: &Kinematics, within: bool) -> bool
    ensures { result ≡ S.cable_sizes k.now within }
{
    chain::chain_within(k) && within
}

#[tactic(auto, unfolding(crate::specs::Cable::cable_check))]
fn cable_check(k: &Kinematics, numbers: usize, s: Survey) -> Result<(), Refusal>
    ensures { result ≡ S.cable_check k.now numbers s }
{
    demand(numbers % 5 == 0, Cause::LengthsDiffer, 0)?;
    chain::chain_check(k)?;
    demand(s.finite, Cause::NotFinite, 0)?;
    demand(cable_sizes(k, s.within), Cause::TooLarge, 0)
}

// The cable number of the rotary with that index, 0 of one that the chain lacks. Any index may be asked for, so no enum
// of two rotaries: that would ask more of callers.
#[tactic(auto, unfolding(crate::specs::Cable::cable_number, crate::specs::Cable::cable_of))]
pub fn cable_number(k: &Kinematics, joints: &[f64], rotary: usize) -> Result<u64, Refusal>
    ensures { result ≡ S.cable_number k.now joints.now rotary }
{
    let rest = rest_of(k, rotary);
    let s = survey(rest, rotary, joints);
    cable_check(k, joints.len(), s)?;
    if rotary < k.count as usize {
        return Ok(s.turns);
    }
    Ok(0)
}
