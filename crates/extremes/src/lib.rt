// Extremes beside a path: for every 64 joint sets the smallest and the largest of each of the five numbers, by
// totalOrder. They are built, kept right when one joint set is replaced, and asked which joint set is the first with
// an angle above a given one.
#![tactic(auto)]

ghost use Rattle.std.specs.Prelude.{◌*◌, ◌/◌, ◌≤◌, length};
ghost use Rattle.extremes.specs.Summary.{group_count};

mod asking;
mod checking;
mod entries;
mod summing;

use chain::Joints;
pub use checking::{all_finite, all_within};
pub use entries::{ask, build, replace};

// The smallest and the largest of each number of a group of joint sets.
#[derive(Clone, Copy)]
pub struct Extremes {
    pub low: Joints,
    pub high: Joints,
}

// Joint sets with their summary.
#[derive(Clone, Copy)]
struct Summed<'a> {
    joints: &'a [f64],
    summary: &'a [f64],
    ghost grouped: { group_count (length joints.now / 5) * 10 ≤ length summary.now },
}

// What is asked: the first joint set with an angle of a rotary above the given one. The rotary is 0 or 1, the first or
// the second, and no enum: the definitions take a number, as that of `Joints::angle` does, and an enum would be made of
// it here and taken apart there.
#[derive(Clone, Copy)]
struct Question {
    rotary: usize,
    angle: f64,
}
