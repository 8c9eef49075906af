// Vec3 and its operations, each rounded step as in the Rust.
ghost use Rattle.std.specs.Prelude.{◌≡◌};
ghost use Rattle.geometry.specs.Vector as S;

use crate::Vec3;
use std::ops::{Add, Mul, Sub};

impl Add for Vec3 {
    type Output = Vec3;

    ghost add_gives = { λ a b sum. sum ≡ S.add a b };

    fn add(self, other: Vec3) -> Vec3 {
        Vec3 {
            x: self.x + other.x,
            y: self.y + other.y,
            z: self.z + other.z,
        }
    }
}

impl Sub for Vec3 {
    type Output = Vec3;

    ghost sub_gives = { λ a b difference. difference ≡ S.sub a b };

    fn sub(self, other: Vec3) -> Vec3 {
        Vec3 {
            x: self.x - other.x,
            y: self.y - other.y,
            z: self.z - other.z,
        }
    }
}

impl Mul<f64> for Vec3 {
    type Output = Vec3;

    ghost mul_gives = { λ a factor product. product ≡ S.scale a factor };

    fn mul(self, factor: f64) -> Vec3 {
        Vec3 {
            x: self.x * factor,
            y: self.y * factor,
            z: self.z * factor,
        }
    }
}

pub fn dot(a: Vec3, b: Vec3) -> f64
    ensures { result ≡ S.dot a b }
{
    a.x * b.x + a.y * b.y + a.z * b.z
}

pub fn cross(a: Vec3, b: Vec3) -> Vec3
    ensures { result ≡ S.cross a b }
{
    Vec3 {
        x: a.y * b.z - a.z * b.y,
        y: a.z * b.x - a.x * b.z,
        z: a.x * b.y - a.y * b.x,
    }
}

// The Euclidean length.
pub fn norm(v: Vec3) -> f64
    ensures { result ≡ S.norm v }
{
    root::quick_root(dot(v, v))
}

// The Euclidean distance.
pub fn gap_vec(left: Vec3, right: Vec3) -> f64
    ensures { result ≡ S.gap_vec left right }
{
    norm(left - right)
}

// The point at t on the way from left to right.
#[tactic(auto, unfolding(crate::specs::Vector::lerp_vec, crate::specs::Vector::add, crate::specs::Vector::sub, crate::specs::Vector::scale))]
pub fn lerp_vec(left: Vec3, right: Vec3, t: f64) -> Vec3
    ensures { result ≡ S.lerp_vec left right t }
{
    left + (right - left) * t
}
