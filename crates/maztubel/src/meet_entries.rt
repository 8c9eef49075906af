// The entry that asks whether links meet on a path. A refusal keeps the four numbers that are lent for the answer;
// place and letter are written by every call.
ghost use Rattle.std.specs.Prelude.{◌≡◌};
ghost use Rattle.chain.specs.ChainBytes.{read_chain};
ghost use Rattle.maztubel.specs.Lent as Lent;
ghost use Rattle.maztubel.specs.MeetEntries as S;

use crate::lent::hand_back;
use chain::demand;
use meet::Meeting;
use model::MachineModel;
use refusal::{Cause, Refusal};

#[tactic(auto, using(crate::proofs::Meetings::meet_promised))]
pub fn maztubel_links_meet(
    name: &[u8],
    chain: &[u8],
    model: &[u8],
    joints: &[f64],
    found: &mut u64,
    pose: &mut u64,
    first: &mut u64,
    second: &mut u64,
    at: &mut u64,
    letter: &mut u8,
) -> u32
    ensures { let answer = S.meet_of name.now chain.now model.now joints.now in
        (result ≡ Lent.number_in answer)
        × (at.new ≡ Lent.place_in answer)
        × (letter.new ≡ Lent.letter_in answer)
        × (found.new ≡ S.found_over answer found.old)
        × (pose.new ≡ S.pose_over answer pose.old)
        × (first.new ≡ S.first_over answer first.old)
        × (second.new ≡ S.second_over answer second.old)
        × S.MeetPromise (read_chain chain.now) name.now model.now joints.now answer }
{
    let answer = meet_of(name, chain, model, joints);
    put_meeting(answer, found, pose, first, second);
    hand_back(&answer, at, letter)
}

#[tactic(auto, unfolding(crate::specs::MeetEntries::meet_of))]
fn meet_of(
    name: &[u8],
    chain: &[u8],
    model: &[u8],
    joints: &[f64],
) -> Result<Option<Meeting>, Refusal>
    ensures { result ≡ S.meet_of name.now chain.now model.now joints.now }
{
    demand(joints.len() % 5 == 0, Cause::LengthsDiffer, 0)?;
    let machine = MachineModel {
        name,
        chain: chain::read_chain(chain)?,
        bytes: model,
    };
    meet::links_meet(&machine, joints)
}

// Beside `put_cable` and `put_asked`, as a line at the first of these says.
fn put_meeting(
    answer: Result<Option<Meeting>, Refusal>,
    found: &mut u64,
    pose: &mut u64,
    first: &mut u64,
    second: &mut u64,
)
    ensures found { found.new ≡ S.found_over answer found.old }
    ensures pose { pose.new ≡ S.pose_over answer pose.old }
    ensures first { first.new ≡ S.first_over answer first.old }
    ensures second { second.new ≡ S.second_over answer second.old }
{
    match answer {
        Ok(Some(m)) => {
            *found = 1;
            *pose = m.pose as u64;
            *first = m.first as u64;
            *second = m.second as u64;
        }
        Ok(None) => {
            *found = 0;
            *pose = 0;
            *first = 0;
            *second = 0;
        }
        Err(_) => {}
    }
}
