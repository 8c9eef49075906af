// One of the solutions of a pose.
ghost use Rattle.std.specs.Prelude.{◌≡◌};
ghost use Rattle.std.specs.List.{find};
ghost use Rattle.inverse.specs.Choose as S;

use crate::inverse_map::inverse_ready;
use crate::{Angles, Choice, Ranked, ReadyChain};
use arrayvec::ArrayVec;
use chain::{Joints, Kinematics, ToolPose};
use refusal::Refusal;

// The larger of the two angles' differences, on a chain of one rotary too.
#[tactic(auto, unfolding(crate::specs::Choose::distance_to))]
fn distance_to(j: Joints, preferred: Angles) -> f64
    ensures { result ≡ S.distance_to j preferred }
{
    let first = float::size(j.a0 - preferred.a0);
    let second = float::size(j.a1 - preferred.a1);
    float::maximum(first, second)
}

#[tactic(auto, unfolding(crate::specs::Choose::best_of))]
fn best_of(preferred: Angles, j: Joints) -> Ranked
    ensures { result ≡ S.best_of preferred j }
{
    Ranked {
        joints: j,
        distance: distance_to(j, preferred),
    }
}

// Of two that tie the earlier. By a fold, and not by `min_by`: that wants an order, and `<=` is none where a distance
// is a NaN.
#[tactic(auto, unfolding(crate::specs::Choose::nearer))]
fn nearer(preferred: Angles, best: Ranked, j: Joints) -> Ranked
    ensures { result ≡ S.nearer preferred best j }
{
    let other = best_of(preferred, j);
    if best.distance <= other.distance {
        return best;
    }
    other
}

// The first of all; nowhere of none.
fn first_of(solutions: &[Joints]) -> Joints
    ensures { result ≡ S.first solutions.now }
{
    solutions.first().copied().unwrap_or_default()
}

#[tactic(auto, unfolding(crate::specs::Choose::nearest))]
fn nearest(solutions: &[Joints], preferred: Angles) -> Joints
    ensures { result ≡ S.nearest solutions.now preferred }
{
    let first = best_of(preferred, first_of(solutions));
    let best = solutions
        .iter()
        .fold(first, |best, j| nearer(preferred, best, *j));
    best.joints
}

impl Choice {
    // The hint that goes with it: the two angles asked for, else zero.
    fn hint(self) -> Angles
        ensures { result ≡ S.hint_of self }
    {
        match self {
            Choice::Nearest(a0, a1) => Angles { a0, a1 },
            Choice::FirstPositive | Choice::FirstNegative => Angles::default(),
        }
    }

    // Whether the first angle is at least -1e-9, or at most 1e-9.
    fn suits(self, j: Joints) -> bool
        ensures { result ≡ S.suits self j }
    {
        match self {
            Choice::Nearest(_a0, _a1) => true,
            Choice::FirstPositive => -1e-9 <= j.a0,
            Choice::FirstNegative => j.a0 <= 1e-9,
        }
    }

    fn first_that_suits(self, solutions: &[Joints]) -> Option<Joints>
        ensures { result ≡ find (S.suits self) solutions.now }
    {
        solutions.iter().copied().find(|j| self.suits(*j))
    }

    // The first that suits, else the first of all.
    #[tactic(auto, unfolding(crate::specs::Choose::first_suiting))]
    fn first_suiting(self, solutions: &[Joints]) -> Joints
        ensures { result ≡ S.first_suiting solutions.now self }
    {
        self.first_that_suits(solutions)
            .unwrap_or(first_of(solutions))
    }

    fn pick(self, solutions: &[Joints]) -> Joints
        ensures { result ≡ S.picked solutions.now self }
    {
        match self {
            Choice::Nearest(a0, a1) => nearest(solutions, Angles { a0, a1 }),
            Choice::FirstPositive | Choice::FirstNegative => self.first_suiting(solutions),
        }
    }
}

// `choose` of a chain that the caller has prepared.
#[tactic(auto, unfolding(crate::specs::Choose::choose))]
pub fn choose_ready(
    ready: &ReadyChain<'_>,
    pose: ToolPose,
    tool_length: f64,
    choice: Choice,
) -> Result<Joints, Refusal>
    ensures { result ≡ S.choose ready.now.k.now pose tool_length choice }
{
    let mut solutions = ArrayVec::new();
    inverse_ready(ready, pose, tool_length, choice.hint(), &mut solutions)?;
    Ok(choice.pick(&solutions))
}

// One of the joint sets that `inverse` gives, or its refusal.
pub fn choose(
    k: &Kinematics,
    pose: ToolPose,
    tool_length: f64,
    choice: Choice,
) -> Result<Joints, Refusal>
    ensures { result ≡ S.choose k.now pose tool_length choice }
{
    choose_ready(&ReadyChain::of(k), pose, tool_length, choice)
}
