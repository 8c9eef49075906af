// The balls at a joint set: each middle placed by the frame of what carries it.
ghost use Rattle.std.specs.Prelude.{map, ◌≡◌};
ghost use Rattle.meet.specs.MeetingSteps as T;

use crate::{Ball, Balls, Frames};
use chain::{Joints, Prepared};
use geometry::Rigid;
use model::{LinkKind, frame_of};

// Every frame once for a joint set.
#[tactic(auto, unfolding(crate::specs::MeetingSteps::frames_at))]
pub fn frames_at(p: Prepared, j: Joints) -> Frames
    ensures { result ≡ T.frames_at p j }
{
    let turns = model::turns_forth(j.a0, j.a1);
    let table = frame_of(p, turns, j.xyz, LinkKind::Table);
    let head = frame_of(p, turns, j.xyz, LinkKind::Head);
    let first = frame_of(p, turns, j.xyz, LinkKind::Rotary(0));
    let second = frame_of(p, turns, j.xyz, LinkKind::Rotary(1));
    Frames {
        table,
        head,
        first,
        second,
    }
}

fn frame_for(frames: Frames, kind: LinkKind) -> Rigid
    ensures { result ≡ T.frame_for frames kind }
{
    match kind {
        LinkKind::Table => frames.table,
        LinkKind::Head => frames.head,
        LinkKind::Rotary(0) => frames.first,
        LinkKind::Rotary(_) => frames.second,
        LinkKind::Base | LinkKind::Unknown => Rigid::identity(),
    }
}

fn placed(frames: Frames, ball: Ball) -> Ball
    ensures { result ≡ T.placed frames ball }
{
    let frame = frame_for(frames, ball.kind);
    let middle = frame.map_point(ball.middle);
    Ball { middle, ..ball }
}

// Into a list that one call keeps for all its poses: a new one is zeroed first, all 64 places of it.
pub fn placed_all(frames: Frames, balls: &Balls, all: &mut Balls)
    ensures { all.new.items ≡ map (T.placed frames) balls.now.items }
{
    all.clear();
    for ball in balls.iter() {
        all.push(placed(frames, *ball));
    }
}
