// The entries of the inverse map: every joint set that reaches a pose, and one of them by a choice. A chain is handed
// over as bytes; place and letter are written by every call, and with 21 and 22 what was lent for the answer is +0.0.
ghost use Rattle.std.specs.Prelude.{◌≤◌, ◌≡◌, length};
ghost use Rattle.maztubel.specs.Lent as Lent;
ghost use Rattle.maztubel.specs.InverseEntries as S;

use crate::lent::hand_back;
use chain::{Joints, Kinematics, demand};
use inverse::{Angles, Choice, SolutionList};
use refusal::{Cause, Refusal};

pub fn maztubel_inverse(
    chain: &[u8],
    pose: &[f64],
    tool_length: f64,
    hint: &[f64],
    list: &mut [f64],
    count: &mut u64,
    at: &mut u64,
    letter: &mut u8,
) -> u32
    ensures number { result ≡ Lent.number_in (S.inverse_of chain.now pose.now tool_length hint.now (length list.old)) }
    ensures place { at.new ≡ Lent.place_in (S.inverse_of chain.now pose.now tool_length hint.now (length list.old)) }
    ensures named { letter.new ≡ Lent.letter_in (S.inverse_of chain.now pose.now tool_length hint.now (length list.old)) }
    ensures lent { list.new ≡ S.list_over (S.inverse_of chain.now pose.now tool_length hint.now (length list.old)) list.old }
    ensures counted { count.new ≡ S.count_over (S.inverse_of chain.now pose.now tool_length hint.now (length list.old)) count.old }
{
    let room = list.len();
    let answers = inverse_of(chain, pose, tool_length, hint, room);
    put_list(&answers, list);
    put_count(&answers, count);
    hand_back(&answers, at, letter)
}

pub fn maztubel_choose(
    chain: &[u8],
    pose: &[f64],
    tool_length: f64,
    choice: u32,
    hint: &[f64],
    joints: &mut [f64],
    at: &mut u64,
    letter: &mut u8,
) -> u32
    ensures number { result ≡ Lent.number_in (S.choose_of chain.now pose.now tool_length choice hint.now (length joints.old)) }
    ensures place { at.new ≡ Lent.place_in (S.choose_of chain.now pose.now tool_length choice hint.now (length joints.old)) }
    ensures named { letter.new ≡ Lent.letter_in (S.choose_of chain.now pose.now tool_length choice hint.now (length joints.old)) }
    ensures lent { joints.new ≡ S.joints_over (S.choose_of chain.now pose.now tool_length choice hint.now (length joints.old)) joints.old }
{
    let room = joints.len();
    let answer = choose_of(chain, pose, tool_length, choice, hint, room);
    put_chosen(answer, joints);
    hand_back(&answer, at, letter)
}

// ---- what is lent to be read

// Two numbers as angles.
#[tactic(auto, unfolding(crate::specs::InverseEntries::angles_in))]
pub fn angles_in(hint: &[f64]) -> Angles
    requires { length hint.now ≡ 2 }
    ensures { result ≡ S.angles_in hint.now }
{
    let a0 = hint[0];
    let a1 = hint[1];
    Angles { a0, a1 }
}

// C says the choice by a number. Every number from 2 on counts as the third here: what is above 2 is refused before, in
// one check with the lengths, as the definition has it. An Option would take that check apart and refuse in two places.
#[tactic(auto, unfolding(crate::specs::InverseEntries::choice_of))]
pub fn choice_of(choice: u32, hint: Angles) -> Choice
    ensures { result ≡ S.choice_of choice hint }
{
    match choice {
        0 => Choice::Nearest(hint.a0, hint.a1),
        1 => Choice::FirstPositive,
        _ => Choice::FirstNegative,
    }
}

// ---- what is answered

#[tactic(auto, unfolding(crate::specs::InverseEntries::inverse_of, crate::specs::InverseEntries::pose_in, path::specs::Solving::pose_in))]
fn inverse_of(
    chain: &[u8],
    pose: &[f64],
    tool_length: f64,
    hint: &[f64],
    room: usize,
) -> Result<SolutionList, Refusal>
    ensures { result ≡ S.inverse_of chain.now pose.now tool_length hint.now room }
{
    demand(
        pose.len() == 6 && hint.len() == 2 && room == 250,
        Cause::LengthsDiffer,
        0,
    )?;
    let mut k = Kinematics::default();
    chain::read_chain_into(chain, &mut k)?;
    inverse::inverse(&k, path::pose_in(pose, 0), tool_length, angles_in(hint))
}

// The lengths and the choice of `choose` and of `choose_tooth`.
pub fn choice_lengths(pose: usize, hint: usize, room: usize, choice: u32) -> bool
    ensures { result ≡ S.choice_lengths pose hint room choice }
{
    pose == 6 && hint == 2 && room == 5 && choice < 3
}

#[tactic(auto, unfolding(crate::specs::InverseEntries::choose_of, crate::specs::InverseEntries::pose_in, path::specs::Solving::pose_in))]
fn choose_of(
    chain: &[u8],
    pose: &[f64],
    tool_length: f64,
    choice: u32,
    hint: &[f64],
    room: usize,
) -> Result<Joints, Refusal>
    ensures { result ≡ S.choose_of chain.now pose.now tool_length choice hint.now room }
{
    demand(
        choice_lengths(pose.len(), hint.len(), room, choice),
        Cause::LengthsDiffer,
        0,
    )?;
    let mut k = Kinematics::default();
    chain::read_chain_into(chain, &mut k)?;
    let choice = choice_of(choice, angles_in(hint));
    inverse::choose(&k, path::pose_in(pose, 0), tool_length, choice)
}

// ---- what is lent to be written

// Whether no lent answer is kept: where the axis is reached nowhere, or outside the limits alone.
#[tactic(auto, unfolding(crate::specs::InverseEntries::clears))]
fn clears(r: Refusal) -> bool
    ensures { result ≡ S.clears r }
{
    matches!(r.cause, Cause::NotReachable | Cause::OutsideLimits)
}

// The joint sets one after another, and +0.0 behind them. Written by index: once a borrow from `chunks_mut` is over, a
// proof knows the list's length and not its numbers.
fn put_sets(solutions: &[Joints], list: &mut [f64])
    requires few { length solutions.now ≤ 50 }
    requires room { length list.old ≡ 250 }
    ensures { list.new ≡ S.set_numbers solutions.now }
{
    for (k, j) in solutions.iter().enumerate() {
        path::put_joints(*j, list, k * 5);
    }
    path::clear_from(list, solutions.len() * 5);
}

// Tests the room again, as the definitions do, and as `put_chosen` does: a `requires` in place of the test would have
// every caller prove that an answer comes only with its room.
fn put_list(answers: &Result<SolutionList, Refusal>, list: &mut [f64])
    ensures { list.new ≡ S.list_over answers.now list.old }
{
    match answers {
        Ok(solutions) if list.len() == 250 => put_sets(solutions, list),
        Err(r) if clears(*r) => list.fill(0.0),
        _ => {}
    }
}

fn put_count(answers: &Result<SolutionList, Refusal>, count: &mut u64)
    ensures { count.new ≡ S.count_over answers.now count.old }
{
    match answers {
        Ok(solutions) => *count = solutions.len() as u64,
        Err(r) if clears(*r) => *count = 0,
        _ => {}
    }
}

#[tactic(auto, using(crate::proofs::Sets::set_written))]
pub fn put_chosen(answer: Result<Joints, Refusal>, joints: &mut [f64])
    ensures { joints.new ≡ S.joints_over answer joints.old }
{
    match answer {
        Ok(j) if joints.len() == 5 => path::put_joints(j, joints, 0),
        Err(r) if clears(r) => joints.fill(0.0),
        _ => {}
    }
}
