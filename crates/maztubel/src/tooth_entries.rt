// The entry of the positioning profile: one of the joint sets of the inverse map, on the teeth of a Hirth table. The
// tolerance is tested before all that is lent. With 21 and 22 the lent joints are +0.0, as `maztubel_choose` leaves
// them; every other refusal keeps them.
ghost use Rattle.std.specs.Prelude.{◌≡◌, length};
ghost use Rattle.maztubel.specs.ToothEntries as S;

use crate::inverse_entries::{angles_in, choice_lengths, choice_of, put_chosen};
use crate::lent::hand_back;
use chain::{Joints, Kinematics, demand};
use refusal::{Cause, Refusal};

pub fn maztubel_choose_tooth(
    chain: &[u8],
    pose: &[f64],
    tool_length: f64,
    choice: u32,
    hint: &[f64],
    tolerance: f64,
    joints: &mut [f64],
    at: &mut u64,
    letter: &mut u8,
) -> u32
    ensures { let answer = S.tooth_of chain.now pose.now tool_length choice hint.now tolerance (length joints.old) in
        S.Handed answer result at.new letter.new joints.old joints.new }
{
    let room = joints.len();
    let answer = tooth_of(chain, pose, tool_length, choice, hint, tolerance, room);
    put_chosen(answer, joints);
    hand_back(&answer, at, letter)
}

#[tactic(auto, unfolding(crate::specs::ToothEntries::tooth_of, crate::specs::InverseEntries::pose_in, path::specs::Solving::pose_in))]
fn tooth_of(
    chain: &[u8],
    pose: &[f64],
    tool_length: f64,
    choice: u32,
    hint: &[f64],
    tolerance: f64,
    room: usize,
) -> Result<Joints, Refusal>
    ensures { result ≡ S.tooth_of chain.now pose.now tool_length choice hint.now tolerance room }
{
    demand(divide::tolerance_good(tolerance), Cause::Tolerance, 0)?;
    demand(
        choice_lengths(pose.len(), hint.len(), room, choice),
        Cause::LengthsDiffer,
        0,
    )?;
    let mut k = Kinematics::default();
    chain::read_chain_into(chain, &mut k)?;
    let choice = choice_of(choice, angles_in(hint));
    hirth::choose_tooth(&k, path::pose_in(pose, 0), tool_length, choice, tolerance)
}
