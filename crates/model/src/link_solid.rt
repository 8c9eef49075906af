// The solid of a link: a box by two corners, or a cylinder.
ghost use Rattle.std.specs.Prelude.{◌+◌, ◌≤◌, ◌≡◌, length};
ghost use Rattle.model.specs.Solid as S;

use crate::{Link, LinkSolid};
use chain::{byte_at, has_direction, number_at, vector_at};
use geometry::{Vec3, all_finite};

// The solid of the link whose kind stands there.
#[tactic(auto, unfolding(crate::specs::Solid::solid_at))]
pub fn solid_at(bytes: &[u8], kind: usize) -> LinkSolid
    requires { kind + 65 ≤ length bytes.now }
    ensures { result ≡ S.solid_at bytes.now kind }
{
    let first = vector_at(bytes, kind + 1);
    let second = vector_at(bytes, kind + 25);
    let radius = number_at(bytes, kind + 49);
    let length = number_at(bytes, kind + 57);
    if byte_at(bytes, kind) == 0 {
        return LinkSolid::Box {
            min: first,
            max: second,
        };
    }
    LinkSolid::Cylinder {
        base: first,
        axis: second,
        radius,
        length,
    }
}

#[tactic(auto, unfolding(crate::specs::Solid::box_good))]
fn box_good(min: Vec3, max: Vec3) -> bool
    ensures { result ≡ S.box_good min max }
{
    all_finite(min) && all_finite(max) && max.x > min.x && max.y > min.y && max.z > min.z
}

#[tactic(auto, unfolding(crate::specs::Solid::positive))]
fn positive(x: f64) -> bool
    ensures { result ≡ S.positive x }
{
    float::finite(x) && x > 0.0
}

#[tactic(auto, unfolding(crate::specs::Solid::cylinder_good))]
fn cylinder_good(base: Vec3, axis: Vec3, radius: f64, length: f64) -> bool
    ensures { result ≡ S.cylinder_good base axis radius length }
{
    all_finite(base)
        && all_finite(axis)
        && positive(radius)
        && positive(length)
        && has_direction(axis)
}

fn solid_good(solid: LinkSolid) -> bool
    ensures { result ≡ S.solid_good solid }
{
    match solid {
        LinkSolid::Box { min, max } => box_good(min, max),
        LinkSolid::Cylinder {
            base,
            axis,
            radius,
            length,
        } => cylinder_good(base, axis, radius, length),
    }
}

// Whether a solid stands there, whole and good.
#[tactic(auto, unfolding(crate::specs::Solid::good_solid_at))]
pub fn good_solid_at(bytes: &[u8], link: Link) -> bool
    ensures { result ≡ S.good_solid_at bytes.now link.kind }
{
    let kind = link.kind;
    kind + 65 <= bytes.len() && solid_good(solid_at(bytes, kind))
}
