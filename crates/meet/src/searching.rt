// The first pose of a path at which two links meet.
ghost use Rattle.std.specs.Prelude.{◌≡◌};
ghost use Rattle.extremes.specs.Summary.{sets_in};
ghost use Rattle.meet.specs.First as First;
ghost use Rattle.meet.specs.Meeting as S;
ghost use Rattle.meet.specs.MeetingSteps as T;

use crate::checking::meeting_check;
use crate::link_balls::balls_in;
use crate::pairs::first_pair;
use crate::placing::{frames_at, placed_all};
use crate::{Balls, LinkPair, Meeting};
use chain::{Joints, Prepared, prepare};
use model::MachineModel;
use refusal::Refusal;
use turn::joints_in;

#[tactic(auto, unfolding(crate::specs::MeetingSteps::pair_at))]
fn at_pose(p: Prepared, balls: &Balls, j: Joints, placed: &mut Balls) -> Option<LinkPair>
    ensures { result ≡ T.pair_at p balls.now.items j }
{
    placed_all(frames_at(p, j), balls, placed);
    first_pair(placed.as_slice())
}

fn along(p: Prepared, balls: &Balls, joints: &[f64]) -> Option<Meeting>
    ensures { result ≡ S.along_path (T.pair_at p balls.now.items) 0 (sets_in joints.now) }
{
    // No `find_map`, which is no plainer: its closure would change the list at each pose, and our law of it,
    // `first_mapped` of crate extremes, is of a closure that a call leaves as it is.
    let mut placed = Balls::new();
    let (sets, _) = joints.as_chunks::<5>();
    for (pose, set) in sets.iter().enumerate() {
        if let Some(pair) = at_pose(p, balls, joints_in(set, 0), &mut placed) {
            return Some(Meeting {
                pose,
                first: pair.first,
                second: pair.second,
            });
        }
    }
    None
}

// The first pose of the joint sets at which two links of the model meet, and the first two that do; or none; or the
// first refusal.
pub fn links_meet(model: &MachineModel, joints: &[f64]) -> Result<Option<Meeting>, Refusal>
    ensures answer { let m = model.now in result ≡ S.links_meet m.name.now m.chain m.bytes.now joints.now }
    ensures first { let m = model.now in First.Answered m.name.now m.chain m.bytes.now joints.now result }
{
    meeting_check(model, joints)?;
    let p = prepare(&model.chain);
    let balls = balls_in(model);
    Ok(along(p, &balls, joints))
}
