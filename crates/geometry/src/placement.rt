// Rigid placements.
ghost use Rattle.std.specs.Prelude.{◌≡◌};
ghost use Rattle.geometry.specs.Rigid as S;

use crate::vector::dot;
use crate::{Rigid, Vec3};

impl Rigid {
    #[tactic(auto, unfolding(crate::specs::Rigid::identity))]
    pub fn identity() -> Rigid
        ensures { result ≡ S.identity }
    {
        Rigid {
            origin: Vec3::default(),
            axis_x: Vec3 {
                x: 1.0,
                ..Vec3::default()
            },
            axis_y: Vec3 {
                y: 1.0,
                ..Vec3::default()
            },
            axis_z: Vec3 {
                z: 1.0,
                ..Vec3::default()
            },
        }
    }

    pub fn from_axes(origin: Vec3, axis_x: Vec3, axis_y: Vec3, axis_z: Vec3) -> Rigid
        ensures { result ≡ S.from_axes origin axis_x axis_y axis_z }
    {
        Rigid {
            origin,
            axis_x,
            axis_y,
            axis_z,
        }
    }

    // A free vector of this frame, in the parent frame.
    pub fn map_direction(self, direction: Vec3) -> Vec3
        ensures { result ≡ S.map_direction self direction }
    {
        self.axis_x * direction.x + self.axis_y * direction.y + self.axis_z * direction.z
    }

    // A point of this frame, in the parent frame.
    pub fn map_point(self, point: Vec3) -> Vec3
        ensures { result ≡ S.map_point self point }
    {
        self.origin + self.map_direction(point)
    }

    // The placement back: orthonormal axes invert by transposition.
    pub fn inverse(self) -> Rigid
        ensures { result ≡ S.inverse self }
    {
        let o = self.origin;
        let a = self.axis_x;
        let b = self.axis_y;
        let c = self.axis_z;
        Rigid {
            origin: Vec3 {
                x: -dot(a, o),
                y: -dot(b, o),
                z: -dot(c, o),
            },
            axis_x: Vec3 {
                x: a.x,
                y: b.x,
                z: c.x,
            },
            axis_y: Vec3 {
                x: a.y,
                y: b.y,
                z: c.y,
            },
            axis_z: Vec3 {
                x: a.z,
                y: b.z,
                z: c.z,
            },
        }
    }

    // `inner` first, then this.
    pub fn compose(self, inner: Rigid) -> Rigid
        ensures { result ≡ S.compose self inner }
    {
        let origin = self.map_point(inner.origin);
        let axis_x = self.map_direction(inner.axis_x);
        let axis_y = self.map_direction(inner.axis_y);
        let axis_z = self.map_direction(inner.axis_z);
        Rigid {
            origin,
            axis_x,
            axis_y,
            axis_z,
        }
    }
}
