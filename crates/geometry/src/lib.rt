// Vectors, directions, turns and rigid placements, operation by operation in the order of the Rust (top of
// kinematics.rs, geom.rs). Structs of numbers go in and come out by value. Every function is total: where there is no
// direction the answer is None, or a fallback that is named beside it.
#![tactic(auto)]

mod normal;
mod placement;
mod rotation;
mod slerp;
mod vector;

pub use normal::{all_finite, unit_direction, unit_or};
pub use rotation::{rotate_point, rotate_vector};
pub use slerp::{angle_between_deg, slerp_axis};
pub use vector::{cross, dot, gap_vec, lerp_vec, norm};

#[derive(Clone, Copy, Default)]
pub struct Vec3 {
    pub x: f64,
    pub y: f64,
    pub z: f64,
}

// The sine and cosine of an angle, by which a vector is turned. Not `trig::Pair`, of the same two fields: `of` and
// `turned_back` would stand in trig, which knows no turn, and chain, model and hirth, which keep turns, be built on it.
#[derive(Clone, Copy)]
pub struct Turn {
    pub sine: f64,
    pub cosine: f64,
}

// A placement: a point goes to origin + x * axis_x + y * axis_y + z * axis_z.
#[derive(Clone, Copy)]
pub struct Rigid {
    pub origin: Vec3,
    pub axis_x: Vec3,
    pub axis_y: Vec3,
    pub axis_z: Vec3,
}
