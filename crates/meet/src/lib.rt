// Do the links of a model meet on a path? Each link has a ball around its solid, placed by the frame of what carries
// it. Two links of different carriers meet where their balls are nearer than the sum of the radii.
//
// The balls are worked out once a call, the frames once a pose.
#![tactic(auto)]

mod checking;
mod link_balls;
mod pairs;
mod placing;
mod searching;

use arrayvec::ArrayVec;
use geometry::{Rigid, Vec3};
use model::LinkKind;
pub use searching::links_meet;

// The ball of a link, and what carries it. Two links of a model that passed its check have one kind exactly where they
// have one carrier. The default is no ball: what an unused place of a list holds.
#[derive(Clone, Copy, Default)]
pub struct Ball {
    pub kind: LinkKind,
    pub middle: Vec3,
    pub radius: f64,
}

// The balls of a model's links, in their order.
type Balls = ArrayVec<Ball, 64>;

// The frames of tables, of heads and of each rotary at a joint set. The base has none: it stands still.
#[derive(Clone, Copy)]
pub struct Frames {
    pub table: Rigid,
    pub head: Rigid,
    pub first: Rigid,
    pub second: Rigid,
}

// Two links by index, the earlier one first.
#[derive(Clone, Copy)]
pub struct LinkPair {
    pub first: usize,
    pub second: usize,
}

// The first pose where two links meet, and the first two that do. Three numbers, and no `LinkPair` within: so has the
// definition `meeting_at`, and so C is told.
#[derive(Clone, Copy)]
pub struct Meeting {
    pub pose: usize,
    pub first: usize,
    pub second: usize,
}
