// Whole turns: each raw angle from two turns back to two turns on, as far as its rotary may go, and each first angle
// paired with each second one.
ghost use Rattle.std.specs.Prelude.{◌+◌, ◌≤◌, ◌<◌, ◌≡◌, [], length};
ghost use Rattle.inverse.specs.Wraps as S;

use crate::{Angles, CandidateList, PairList, RawPair};
use arrayvec::ArrayVec;
use chain::{Kinematics, RotaryLimits};

// Above -180 and at most 180.
#[tactic(auto, unfolding(crate::specs::Wraps::principal))]
fn principal(angle: f64) -> bool
    ensures { result ≡ S.principal angle }
{
    -180.0 < angle && angle <= 180.0
}

// Within the limits, or principal where there are none. As `permits` of crate path but for the last test, and a line
// there says why both stand.
fn allowed(travel: Option<RotaryLimits>, angle: f64) -> bool
    ensures { result ≡ S.allowed travel angle }
{
    travel.map_or(principal(angle), |limits| limits.contains(angle))
}

#[tactic(auto, unfolding(crate::specs::Wraps::keep_allowed))]
fn keep_allowed(travel: Option<RotaryLimits>, kept: &mut CandidateList, angle: f64)
    requires { length kept.old.items < 5 }
    ensures list { kept.new.items ≡ S.keep_allowed travel kept.old.items angle }
    ensures count { length kept.new.items ≤ length kept.old.items + 1 }
{
    if allowed(travel, angle) {
        kept.push(angle);
    }
}

fn angle_candidates(angle: f64, travel: Option<RotaryLimits>) -> CandidateList
    ensures list { result.items ≡ S.angle_candidates angle travel }
    ensures count { length result.items ≤ 5 }
{
    let mut kept = ArrayVec::new();
    for turns in [-720.0, -360.0, 0.0, 360.0, 720.0] {
        keep_allowed(travel, &mut kept, angle + turns);
    }
    kept
}

// Less than 1e-9 apart in both angles.
#[tactic(auto, unfolding(crate::specs::Wraps::same_angles))]
pub fn same_angles(left: Angles, right: Angles) -> bool
    ensures { result ≡ S.same_angles left right }
{
    float::size(left.a0 - right.a0) < 1e-9 && float::size(left.a1 - right.a1) < 1e-9
}

#[tactic(auto, unfolding(crate::specs::Wraps::has))]
fn has(pairs: &[Angles], pair: Angles) -> bool
    ensures { result ≡ S.has pair pairs.now }
{
    pairs.iter().any(|have| same_angles(*have, pair))
}

// A pair of which there is none the same yet. The room in `pairs` is a clause and no type of its own: here it is that
// for one pair, in `add_row` for 5, in `add_rows` and `add_raw` for 25, and a type would say one of the three.
#[tactic(auto, unfolding(crate::specs::Wraps::add_pair))]
fn add_pair(a0: f64, pairs: &mut PairList, a1: f64)
    requires { length pairs.old.items < 50 }
    ensures list { pairs.new.items ≡ S.add_pair a0 pairs.old.items a1 }
    ensures count { length pairs.new.items ≤ length pairs.old.items + 1 }
{
    let pair = Angles { a0, a1 };
    if !has(pairs, pair) {
        pairs.push(pair);
    }
}

// One first angle with every second one.
fn add_row(second: &CandidateList, pairs: &mut PairList, a0: f64)
    requires { length pairs.old.items + 5 ≤ 50 }
    ensures list { pairs.new.items ≡ S.add_row second.now.items pairs.old.items a0 }
    ensures count { length pairs.new.items ≤ length pairs.old.items + 5 }
{
    for a1 in second.iter() {
        add_pair(a0, pairs, *a1);
    }
}

fn add_rows(first: &CandidateList, second: &CandidateList, pairs: &mut PairList)
    requires { length pairs.old.items + 25 ≤ 50 }
    ensures list { pairs.new.items ≡ S.add_rows first.now.items second.now.items pairs.old.items }
    ensures count { length pairs.new.items ≤ length pairs.old.items + 25 }
{
    for a0 in first.iter() {
        add_row(second, pairs, *a0);
    }
}

// All that one raw pair gives, which may be absent.
fn add_raw(
    first: Option<RotaryLimits>,
    second: Option<RotaryLimits>,
    raw: Option<Angles>,
    pairs: &mut PairList,
)
    requires { length pairs.old.items + 25 ≤ 50 }
    ensures list { pairs.new.items ≡ S.add_raw first second raw pairs.old.items }
    ensures count { length pairs.new.items ≤ length pairs.old.items + 25 }
{
    let Some(angles) = raw else {
        return;
    };
    let outer = angle_candidates(angles.a0, first);
    let inner = angle_candidates(angles.a1, second);
    add_rows(&outer, &inner, pairs);
}

// A second rotary that the chain has not is without limits.
#[tactic(auto, unfolding(crate::specs::Wraps::second_travel))]
pub fn second_travel(k: &Kinematics) -> Option<RotaryLimits>
    ensures { result ≡ S.second_travel k.now }
{
    k.second_rotary()?.limits
}

// All that both raw pairs give, into a list that is empty.
#[tactic(auto, unfolding(crate::specs::Wraps::expand_wraps))]
pub fn expand_wraps(
    first: Option<RotaryLimits>,
    second: Option<RotaryLimits>,
    raw: RawPair,
    pairs: &mut PairList,
)
    requires { pairs.old.items ≡ [] }
    ensures list { pairs.new.items ≡ S.expand_wraps first second raw }
    ensures count { length pairs.new.items ≤ 50 }
{
    add_raw(first, second, raw.first, pairs);
    add_raw(first, second, raw.second, pairs);
}
