// The ball of each link: its middle and its radius, from the link's solid.
ghost use Rattle.std.specs.Prelude.{◌+◌, ◌≤◌, ◌<◌, true, [], ◌∷◌, ◌++◌, map, ◌≡◌, length};
ghost use Rattle.lists.specs.Search.{all};
ghost use Rattle.model.specs.Model.{links_of};
ghost use Rattle.meet.specs.Balls as S;
ghost use Rattle.meet.specs.MeetingSteps as T;

use crate::{Ball, Balls};
use arrayvec::ArrayVec;
use geometry::Vec3;
use model::{Link, LinkKind, LinkSolid, MachineModel};

// The middle between the corners, and half the diagonal.
#[tactic(auto, unfolding(crate::specs::Balls::box_middle, crate::specs::Balls::box_radius))]
fn box_ball(kind: LinkKind, min: Vec3, max: Vec3) -> Ball
    ensures { result ≡ T.carried_ball kind (S.box_middle min max) (S.box_radius min max) }
{
    let middle = geometry::lerp_vec(min, max, 0.5);
    let diagonal = geometry::gap_vec(max, min);
    Ball {
        kind,
        middle,
        radius: diagonal * 0.5,
    }
}

// The middle of the length, and the distance from there to the rim.
#[tactic(auto, unfolding(crate::specs::Balls::cylinder_middle, crate::specs::Balls::cylinder_radius, chain::specs::Prepared::unit_axis))]
fn cylinder_ball(kind: LinkKind, base: Vec3, axis: Vec3, radius: f64, length: f64) -> Ball
    ensures { result ≡ T.carried_ball kind (S.cylinder_middle base axis length) (S.cylinder_radius radius length) }
{
    let half = length * 0.5;
    let unit = geometry::unit_or(axis, axis);
    let middle = base + unit * half;
    let rim = root::root(radius * radius + half * half);
    Ball {
        kind,
        middle,
        radius: rim,
    }
}

fn ball_of(kind: LinkKind, solid: LinkSolid) -> Ball
    ensures { result ≡ T.carried_ball kind (S.middle_of solid) (S.radius_of solid) }
{
    match solid {
        LinkSolid::Box { min, max } => box_ball(kind, min, max),
        LinkSolid::Cylinder {
            base,
            axis,
            radius,
            length,
        } => cylinder_ball(kind, base, axis, radius, length),
    }
}

#[tactic(auto, unfolding(crate::specs::MeetingSteps::link_ball))]
fn link_ball(model: &MachineModel, link: Link) -> Ball
    requires { link.kind + 65 ≤ length model.now.bytes.now }
    ensures { result ≡ T.link_ball model.now.chain model.now.bytes.now link }
{
    let kind = model::carrier_kind(&model.chain, link.carrier_in(model.bytes));
    ball_of(kind, model::solid_at(model.bytes, link.kind))
}

// The balls of a model's links, each of which is whole.
pub fn balls_in(model: &MachineModel) -> Balls
    requires { let bytes = model.now.bytes.now in (length (links_of bytes) ≤ 64) × (all (T.whole_solid bytes) (links_of bytes) ≡ true) }
    ensures { let bytes = model.now.bytes.now in result.items ≡ map (T.link_ball model.now.chain bytes) (links_of bytes) }
{
    let mut balls = ArrayVec::new();
    for link in model::links_in(model.bytes) {
        balls.push(link_ball(model, link));
    }
    balls
}
