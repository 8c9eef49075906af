// Two neighbours on a path: their midpoint, and the tolerance test there and at both quarters. A crate of its own,
// below the machine that asks it at every turn, so that a wrong test or midpoint is refused without the machine's
// proofs.
#![tactic(auto)]

mod testing;

use chain::{Joints, ToolPose};
pub use testing::{joints_unchanged, lerp_joints, midpoint, pose_of, segment_within, verdict_with};

// How far the middle of two neighbours may be off: the tip in mm, the axis in degrees. A strict test holds both
// quarters to the same.
#[derive(Clone, Copy)]
pub struct Tolerances {
    pub chord: f64,
    pub axis: f64,
    pub strict: bool,
}

// A pose with its joint set.
#[derive(Clone, Copy)]
pub struct Item {
    pub pose: ToolPose,
    pub joints: Joints,
}
