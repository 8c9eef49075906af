// The checks of the question: whole joint sets, the model's full check, then finite joints and sizes.
ghost use Rattle.std.specs.Prelude.{◌+◌, ◌≤◌, ◌≡◌, length};
ghost use Rattle.lists.specs.Search.{all};
ghost use Rattle.model.specs.Model.{links_of};
ghost use Rattle.meet.specs.Checking as S;

use chain::{all_within, demand, within};
use geometry::Vec3;
use model::{Link, LinkSolid, MachineModel};
use refusal::{Cause, Refusal};

#[tactic(auto, unfolding(crate::specs::Checking::box_within))]
fn box_within(min: Vec3, max: Vec3) -> bool
    ensures { result ≡ S.box_within min max }
{
    all_within(min, 100000.0) && all_within(max, 100000.0)
}

// The axis has no limit: only its direction counts.
#[tactic(auto, unfolding(crate::specs::Checking::cylinder_within))]
fn cylinder_within(base: Vec3, radius: f64, length: f64) -> bool
    ensures { result ≡ S.cylinder_within base radius length }
{
    all_within(base, 100000.0) && within(radius, 100000.0) && within(length, 100000.0)
}

fn solid_within(solid: LinkSolid) -> bool
    ensures { result ≡ S.solid_within solid }
{
    match solid {
        LinkSolid::Box { min, max } => box_within(min, max),
        LinkSolid::Cylinder {
            base,
            radius,
            length,
            ..
        } => cylinder_within(base, radius, length),
    }
}

// Whether the solid of a link is whole and of a size that is served.
#[tactic(auto, unfolding(crate::specs::Checking::small_solid_at))]
fn small_solid_at(bytes: &[u8], link: Link) -> bool
    ensures { result ≡ S.small_solid_at bytes.now link.kind }
{
    link.kind + 65 <= bytes.len() && solid_within(model::solid_at(bytes, link.kind))
}

fn solids_within(bytes: &[u8]) -> bool
    ensures { result ≡ all (S.small_link bytes.now) (links_of bytes.now) }
{
    model::links_in(bytes).all(|link| small_solid_at(bytes, link))
}

#[tactic(auto, unfolding(crate::specs::Checking::meeting_sizes))]
fn meeting_sizes(model: &MachineModel, joints: &[f64]) -> bool
    ensures { result ≡ S.meeting_sizes model.now.chain model.now.bytes.now joints.now }
{
    chain::chain_within(&model.chain) && extremes::all_within(joints) && solids_within(model.bytes)
}

#[tactic(auto, unfolding(crate::specs::Checking::meeting_check))]
pub fn meeting_check(model: &MachineModel, joints: &[f64]) -> Result<(), Refusal>
    ensures { let m = model.now in result ≡ S.meeting_check m.name.now m.chain m.bytes.now joints.now }
{
    demand(joints.len() % 5 == 0, Cause::LengthsDiffer, 0)?;
    model.full_check()?;
    demand(extremes::all_finite(joints), Cause::NotFinite, 0)?;
    demand(meeting_sizes(model, joints), Cause::TooLarge, 0)
}
