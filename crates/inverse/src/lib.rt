// From a tool pose to the joints that reach it: Paden-Kahan subproblems for the angles (Murray, Li, Sastry 1994), whole
// turns within the limits, the position for each, and one choice among them.
#![tactic(auto)]

ghost use Rattle.std.specs.Prelude.{◌≡◌};
ghost use Rattle.chain.specs.Prepared.{prepared};
ghost use Rattle.inverse.specs.UpToTwo as S;
ghost use Rattle.inverse.specs.Wraps.{angles_in};

mod axis_map;
mod choosing;
mod copied;
mod inverse_map;
mod ordering;
mod orientation;
mod subproblem;
mod wraps;

use arrayvec::ArrayVec;
pub use axis_map::{axis_map_of, parallel_axes};
use chain::{Joints, Kinematics, Prepared};
pub use choosing::{choose, choose_ready};
use geometry::Vec3;
pub use inverse_map::{angles_within, inverse, joints_from, misses, pose_from, reached_at};
pub use ordering::{compare, precedes};
pub use orientation::orientation_angles;
pub use subproblem::{apply_angle, sp1, sp2};
pub use wraps::same_angles;

// The angle that takes one vector to another, or any: where the vector lies on the axis. No Option: `None` would read
// as no angle, where every angle will do.
#[derive(Clone, Copy)]
pub enum SolvedAngle {
    Fixed(f64),
    Free,
}

// At most two, each from a branch of its own: two places and no vector, since the definitions name them, and crate
// path asks for the one and for the other (`closest_alone`), in a vector `pairs.first().copied()` and
// `pairs.get(1).copied()`.
#[derive(Clone, Copy)]
pub struct UpToTwo<T> {
    pub first: Option<T>,
    pub second: Option<T>,
}

impl<T> UpToTwo<T> {
    // Of the first branch alone.
    fn first_only(first: Option<T>) -> UpToTwo<T>
        ensures { result ≡ S.first_only first }
    {
        UpToTwo {
            first,
            second: None,
        }
    }
}

// What sp2 answers.
pub type SolvedPairs = UpToTwo<(SolvedAngle, SolvedAngle)>;

// An angle for each rotary, in degrees.
#[derive(Clone, Copy, Default)]
pub struct Angles {
    pub a0: f64,
    pub a1: f64,
}

impl From<Joints> for Angles {
    ghost from_gives = { λ j angles. angles ≡ angles_in j };

    fn from(j: Joints) -> Angles {
        Angles { a0: j.a0, a1: j.a1 }
    }
}

// The solutions of the orientation before whole turns and limits.
pub type RawPair = UpToTwo<Angles>;

// R(wa, x) R(wb, y) in the orientation equation, and how x and y are the joints' angles: x belongs to the second rotary
// where `swapped`, and each is its joint's angle times its sign. The two flags stay `bool`: each is asked by an `if`,
// or compared with another flag, and `match map.order { Order::Swapped => .., Order::Kept => .. }` would be no plainer.
#[derive(Clone, Copy)]
pub struct AxisMap {
    pub wa: Vec3,
    pub wb: Vec3,
    pub swapped: bool,
    pub x_sign: f64,
    pub y_sign: f64,
    pub inner_is_x: bool,
}

// An angle turned by whole turns, as far as its rotary may go, as they are found.
pub type CandidateList = ArrayVec<f64, 5>;

// Pairs of angles, no two the same, as they are found.
pub type PairList = ArrayVec<Angles, 50>;

// Joint sets in order, as they are found: what `inverse` answers.
pub type SolutionList = ArrayVec<Joints, 50>;

// The same three as values that are copied where they stand, which the library's vector is not. What stands past the
// count is +0.0.
#[derive(Clone, Copy)]
pub struct Candidates {
    pub count: usize,
    pub items: [f64; 5],
}

#[derive(Clone, Copy)]
pub struct Pairs {
    pub count: usize,
    pub items: [Angles; 50],
}

#[derive(Clone, Copy)]
pub struct Solutions {
    pub count: usize,
    pub items: [Joints; 50],
}

// A chain with what it is prepared to: crate hirth needs that for the teeth too, and so it is made once.
#[derive(Clone, Copy)]
pub struct ReadyChain<'a> {
    pub k: &'a Kinematics,
    pub p: Prepared,
    pub ghost made: { p ≡ prepared k.now },
}

impl ReadyChain<'_> {
    pub fn of(k: &Kinematics) -> ReadyChain<'_>
        ensures { result.k.now ≡ k.now }
    {
        let p = chain::prepare(k);
        ReadyChain { k, p }
    }
}

// Which solution `choose` takes: the nearest to two angles, or the first whose first angle is not below or not above
// zero. No closure: a caller in C says it by a number, so that the ways are these three. `Nearest` holds two numbers
// and no `Angles`: document 01 names that form.
#[derive(Clone, Copy)]
pub enum Choice {
    Nearest(f64, f64),
    FirstPositive,
    FirstNegative,
}

// A joint set and how far its angles are from others: those asked for, or those before them on a path.
#[derive(Clone, Copy)]
pub struct Ranked {
    pub joints: Joints,
    pub distance: f64,
}
