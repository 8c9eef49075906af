// Joints along a path, each pose continuous with the one before it (solve_path of the Rust): exact where the rotaries
// can follow, locked inside the cone about the singular direction. Where the lock would leave a rotary's limits the
// exact solution is taken there too, if there is one. What is solved of one pose is by value and total; what is lent is
// touched in one place.
#![tactic(auto)]

ghost use Rattle.std.specs.Prelude.{◌≡◌, true};
ghost use Rattle.geometry.specs.Doubles.{FitVec};
ghost use Rattle.chain.specs.Check.{all_within, longest};
ghost use Rattle.chain.specs.Doubles.{PreparedFits};
ghost use Rattle.path.specs.Closest.{bounded};

mod closest;
mod exact;
mod locking;
mod posing;
mod singular;
mod solving;
mod unwinding;

use chain::{Prepared, RotaryLimits};
use geometry::Vec3;
use inverse::Angles;
pub use posing::{bounds_of, pose_answer, pose_answer_of, set_up};
pub use solving::{
    clear_from, cone_good, path_chain, pose_in, put_joints, solve_check, solve_checked, solve_path,
    whole_records,
};
pub use unwinding::inside;

// One rotary whose axis is the singular direction, the second or the first, and the unit direction of that axis, in the
// sense of the spindle. The cone is the same about the opposite direction. `on_second` is no enum: no other field means
// something else by it, and `locks_x` compares it with the map's flag, `map.swapped == on_second`.
#[derive(Clone, Copy)]
pub struct SingularFrame {
    pub on_second: bool,
    pub direction: Vec3,
}

// How far a rotary may go, and its letter.
#[derive(Clone, Copy)]
pub struct Bound {
    pub limits: Option<RotaryLimits>,
    pub letter: u8,
}

// Those of the first rotary, and of the second where there is one.
#[derive(Clone, Copy)]
pub struct Bounds {
    pub first: Bound,
    pub second: Option<Bound>,
}

// What is the same for every pose of a path, made once for a call.
#[derive(Clone, Copy)]
pub struct Setup {
    pub chain: Prepared,
    pub bounds: Bounds,
    pub frame: Option<SingularFrame>,
    pub cone: f64,
}

// One whose chain has passed its check, and is of doubles, which a reference to it says by this alone. The facts are no
// fields of `Setup`: `set_up` makes one of every chain.
#[derive(Clone, Copy)]
pub struct CheckedSetup {
    pub setup: Setup,
    ghost bounded: { bounded setup.chain ≡ true },
    ghost fits: { PreparedFits setup.chain },
}

// What is asked of one pose: the unit direction of the tool and the place of its tip, from the angles before. It goes
// beside its `Setup`, and not in one struct with it: fifteen functions would say `asked.s.chain` and `asked.aim.target`
// for `s.chain` and `aim.target`, and where the lock strays one setup is asked of twice, so a second struct is made.
#[derive(Clone, Copy)]
pub struct Aim {
    pub target: Vec3,
    pub tip: Vec3,
    pub previous: Angles,
    ghost within: { all_within tip longest ≡ true },
    ghost fits: { FitVec tip },
}
