// The rotary angles that put the spindle on the wanted axis, before whole turns and limits.
ghost use Rattle.std.specs.Prelude.{◌≡◌};
ghost use Rattle.inverse.specs.Orientation as S;

use crate::axis_map::{axis_map_of, parallel_axes};
use crate::subproblem::{apply_angle, sp1, sp2};
use crate::{Angles, AxisMap, RawPair, SolvedAngle, UpToTwo};
use chain::{Carrier, Prepared, Spin};
use geometry::{Vec3, dot};

// A table's angle counts negative.
fn sign_of(carrier: Carrier) -> f64
    ensures { result ≡ S.sign_of carrier }
{
    match carrier {
        Carrier::Table => -1.0,
        Carrier::Head => 1.0,
    }
}

// The spindle is to be brought onto the target, a unit vector; an angle that is free takes the hint.
#[derive(Clone, Copy)]
struct Aim {
    spindle: Vec3,
    target: Vec3,
    hint: Angles,
}

// A chain of one rotary.
#[tactic(auto, unfolding(crate::specs::Orientation::one_joint_angles))]
fn one_joint_angles(s: Spin, aim: Aim) -> Option<Angles>
    ensures { result ≡ S.one_joint_angles s aim.spindle aim.target aim.hint }
{
    let solved = sp1(s.axis, aim.spindle, aim.target)?;
    let hint = aim.hint;
    let a0 = apply_angle(solved, sign_of(s.carrier), hint.a0);
    Some(Angles { a0, a1: 0.0 })
}

impl AxisMap {
    // wb is sigma times wa, and R(wa, x) R(wb, y) the turn by x + sigma y.
    #[tactic(auto, unfolding(crate::specs::Orientation::sigma_of))]
    fn sigma(self) -> f64
        ensures { result ≡ S.sigma_of self }
    {
        if 0.0 <= dot(self.wa, self.wb) {
            return 1.0;
        }
        -1.0
    }

    // Two parallel rotaries, with that total turn: the inner joint keeps its hint.
    #[tactic(auto, unfolding(crate::specs::Orientation::shared_turn))]
    fn shared_turn(self, total: f64, sigma: f64, hint: Angles) -> Angles
        ensures { result ≡ S.shared_turn self total sigma hint }
    {
        let (hint_x, hint_y) = self.hints(hint);
        if self.inner_is_x {
            let x = self.x_sign * hint_x;
            return self.placed(hint_x, self.y_sign * (sigma * (total - x)));
        }
        let y = self.y_sign * hint_y;
        self.placed(self.x_sign * (total - sigma * y), hint_y)
    }

    #[tactic(auto, unfolding(crate::specs::Orientation::parallel_angles))]
    fn parallel_angles(self, aim: Aim) -> Option<Angles>
        ensures { result ≡ S.parallel_angles self aim.spindle aim.target aim.hint }
    {
        match sp1(self.wa, aim.spindle, aim.target)? {
            SolvedAngle::Free => Some(aim.hint),
            SolvedAngle::Fixed(total) => Some(self.shared_turn(total, self.sigma(), aim.hint)),
        }
    }

    fn raw_of(self, pair: Option<(SolvedAngle, SolvedAngle)>, hint: Angles) -> Option<Angles>
        ensures { result ≡ S.raw_of self pair hint }
    {
        let (x, y) = pair?;
        Some(self.angles(x, y, hint))
    }

    fn two_joint_angles(self, aim: Aim) -> RawPair
        ensures { result ≡ S.two_joint_angles self aim.spindle aim.target aim.hint }
    {
        if parallel_axes(self.wa, self.wb) {
            return UpToTwo::first_only(self.parallel_angles(aim));
        }
        let pairs = sp2(self.wa, self.wb, aim.spindle, aim.target);
        let first = self.raw_of(pairs.first, aim.hint);
        let second = self.raw_of(pairs.second, aim.hint);
        UpToTwo { first, second }
    }
}

// `target` is a unit vector.
#[tactic(auto, unfolding(crate::specs::Orientation::orientation_angles))]
pub fn orientation_angles(p: Prepared, target: Vec3, hint: Angles) -> RawPair
    ensures { result ≡ S.orientation_angles p target hint }
{
    let aim = Aim {
        spindle: p.spindle,
        target,
        hint,
    };
    match p.second {
        None => UpToTwo::first_only(one_joint_angles(p.first, aim)),
        Some(_) => axis_map_of(p).two_joint_angles(aim),
    }
}
