// The entries of a chain. It is handed over as bytes, in the encoding of a job file; place and letter are written by
// every call.
ghost use Rattle.std.specs.Prelude.{◌≡◌, length};
ghost use Rattle.maztubel.specs.Lent as Lent;
ghost use Rattle.maztubel.specs.ChainEntries as S;

use crate::lent::{hand_back, put_vector};
use chain::{Kinematics, ToolPose, demand};
use refusal::{Cause, Refusal};

pub fn maztubel_check_chain(chain: &[u8], at: &mut u64, letter: &mut u8) -> u32
    ensures number { result ≡ Lent.number_in (S.check_chain chain.now) }
    ensures place { at.new ≡ Lent.place_in (S.check_chain chain.now) }
    ensures named { letter.new ≡ Lent.letter_in (S.check_chain chain.now) }
{
    let checked = check_chain(chain);
    hand_back(&checked, at, letter)
}

pub fn maztubel_forward(
    chain: &[u8],
    joints: &[f64],
    tool_length: f64,
    pose: &mut [f64],
    at: &mut u64,
    letter: &mut u8,
) -> u32
    ensures number { result ≡ Lent.number_in (S.forward_of chain.now joints.now tool_length (length pose.old)) }
    ensures place { at.new ≡ Lent.place_in (S.forward_of chain.now joints.now tool_length (length pose.old)) }
    ensures named { letter.new ≡ Lent.letter_in (S.forward_of chain.now joints.now tool_length (length pose.old)) }
    ensures lent { pose.new ≡ S.pose_over (S.forward_of chain.now joints.now tool_length (length pose.old)) pose.old }
{
    let room = pose.len();
    let answer = forward_of(chain, joints, tool_length, room);
    put_pose(answer, pose);
    hand_back(&answer, at, letter)
}

#[tactic(auto, unfolding(crate::specs::ChainEntries::check_chain))]
fn check_chain(bytes: &[u8]) -> Result<(), Refusal>
    ensures { result ≡ S.check_chain bytes.now }
{
    let mut k = Kinematics::default();
    chain::read_chain_into(bytes, &mut k)?;
    chain::chain_check(&k)?;
    chain::chain_sizes(&k)
}

#[tactic(auto, unfolding(crate::specs::ChainEntries::forward_of, crate::specs::Lent::joints_in, turn::specs::Items::joints_in))]
fn forward_of(
    chain: &[u8],
    joints: &[f64],
    tool_length: f64,
    room: usize,
) -> Result<ToolPose, Refusal>
    ensures { result ≡ S.forward_of chain.now joints.now tool_length room }
{
    demand(joints.len() == 5 && room == 6, Cause::LengthsDiffer, 0)?;
    chain::forward_from(chain, turn::joints_in(joints, 0), tool_length)
}

// Writes a pose where there is one, and six numbers' room for it. `forward_of` has tested the room: a `requires` in
// place of the second test would have the caller prove that a pose comes only with its room.
#[tactic(auto, using(crate::proofs::Written::pose_written))]
fn put_pose(answer: Result<ToolPose, Refusal>, pose: &mut [f64])
    ensures { pose.new ≡ S.pose_over answer pose.old }
{
    match answer {
        Ok(p) if pose.len() == 6 => {
            put_vector(p.tip, pose, 0);
            put_vector(p.axis, pose, 3);
        }
        _ => {}
    }
}
