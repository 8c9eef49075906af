// The machine that halves in two lent outputs, turn by turn. Its state is by value; what is placed stands at the front
// of the outputs, and what waits, given or inserted, in order up to `space`.
ghost use Rattle.std.specs.Prelude.{◌+◌, ◌-◌, ◌*◌, ◌≤◌, ◌<◌, ◌≡◌, length};
ghost use Rattle.turn.specs.Turning as S;
ghost use Rattle.turn.specs.Items as I;
ghost use Rattle.turn.specs.Lent.{Left};

use crate::items::joints_in;
use crate::{Machine, Outputs, Setting, Stop};
use chain::Prepared;
use geometry::Vec3;
use middle::{Item, pose_of, verdict_with};

pub const MOST: u64 = 10000;

// The axis that the joints of an item reach.
#[tactic(auto, unfolding(crate::specs::Turning::axis_at))]
pub fn axis_at(p: Prepared, joints: &[f64], i: usize) -> Vec3
    requires { i * 5 + 5 ≤ length joints.now }
    ensures { result ≡ S.axis_at p joints.now i }
{
    pose_of(p, joints_in(joints, i * 5)).axis
}

// A state that is not the last: something waits, in outputs with space for so many. Made once at each turn.
#[derive(Clone, Copy)]
struct Unfinished {
    m: Machine,
    space: usize,
    ghost begun: { 0 < m.placed },
    ghost apart: { m.placed ≤ m.waiting },
    ghost waits: { m.waiting < space },
    ghost fewer: { m.given ≤ space - m.waiting },
    ghost few: { m.inserted ≤ 10000 },
}

impl Unfinished {
    #[tactic(auto, unfolding(crate::specs::Turning::given_next))]
    fn given_next(self) -> bool
        ensures { result ≡ S.given_next self.space self.m }
    {
        self.space - self.m.waiting == self.m.given
    }

    // An inserted item has its axis in its own pose.
    #[tactic(auto, unfolding(crate::specs::Turning::axis_right))]
    fn right_axis(self, right: Item) -> Vec3
        ensures { result ≡ S.axis_right self.space self.m right }
    {
        if self.given_next() {
            return self.m.end_axis;
        }
        right.pose.axis
    }

    #[tactic(auto, unfolding(crate::specs::Turning::end_after))]
    fn end_after(self, p: Prepared, joints: &[f64]) -> Vec3
        requires { self.space * 5 ≤ length joints.now }
        ensures { result ≡ S.end_after p self.m joints.now }
    {
        if self.m.given <= 1 {
            return self.m.end_axis;
        }
        axis_at(p, joints, self.m.waiting + 1)
    }

    #[tactic(auto, unfolding(crate::specs::Turning::past_given))]
    fn past_given(self, p: Prepared, axis: Vec3, joints: &[f64]) -> Machine
        requires { (0 < self.m.given) × (self.space * 5 ≤ length joints.now) }
        ensures { result ≡ S.past_given p self.m axis joints.now }
    {
        Machine {
            placed: self.m.placed + 1,
            waiting: self.m.waiting + 1,
            given: self.m.given - 1,
            left_axis: axis,
            end_axis: self.end_after(p, joints),
            ..self.m
        }
    }

    #[tactic(auto, unfolding(crate::specs::Turning::past_inserted))]
    fn past_inserted(self, axis: Vec3) -> Machine
        ensures { result ≡ S.past_inserted self.m axis }
    {
        Machine {
            placed: self.m.placed + 1,
            waiting: self.m.waiting + 1,
            left_axis: axis,
            ..self.m
        }
    }

    fn past(self, p: Prepared, axis: Vec3, out: &Outputs) -> Machine
        requires { self.space ≤ out.now.space }
        ensures { result ≡ S.past p self.space self.m axis out.now.joints.now }
    {
        if self.given_next() {
            return self.past_given(p, axis, out.joints);
        }
        self.past_inserted(axis)
    }

    fn with_midpoint(self) -> Machine
        requires { self.m.inserted < 10000 }
        ensures { result ≡ S.with_midpoint self.m }
    {
        Machine {
            waiting: self.m.waiting - 1,
            inserted: self.m.inserted + 1,
            ..self.m
        }
    }

    // One item more is one too many, or has no space, or waits.
    fn insert(self, middle: Item, out: &mut Outputs) -> Result<Machine, Stop>
        requires { self.space ≤ out.old.space }
        ensures turn { result ≡ S.inserting self.m }
        ensures lent { Left out.old (S.if_inserted self.m out.old.poses.now (I.poses_with middle out.old.poses.now (S.before self.m))) (S.if_inserted self.m out.old.joints.now (I.joints_with middle out.old.joints.now (S.before self.m))) out.new }
    {
        let m = self.m;
        if m.inserted == MOST {
            return Err(Stop::TooMany(m.inserted));
        }
        if m.placed == m.waiting {
            return Err(Stop::NoSpace(m.inserted));
        }
        out.put(middle, m.waiting - 1);
        Ok(self.with_midpoint())
    }
}

impl Machine {
    // One test of two neighbours, and what comes of it.
    pub fn advance(self, by: &Setting, out: &mut Outputs) -> Result<Machine, Stop>
        requires { S.Runs out.old.space self (length out.old.poses.now) (length out.old.joints.now) }
        ensures turn { result ≡ S.turn by.now.p by.now.tol out.old.space self out.old.poses.now out.old.joints.now }
        ensures lent { Left out.old (S.poses_after by.now.p by.now.tol out.old.space self out.old.poses.now out.old.joints.now) (S.joints_after by.now.p by.now.tol out.old.space self out.old.poses.now out.old.joints.now) out.new }
    {
        let now = Unfinished {
            m: self,
            space: out.space,
        };
        let left = out.item(self.placed - 1);
        let right = out.item(self.waiting);
        let axis = now.right_axis(right);
        let said = verdict_with(&by.p, &by.tol, &left, &right, &self.left_axis, &axis);
        let Some(middle) = said else {
            let next = now.past(by.p, axis, out);
            out.put(right, self.placed);
            return Ok(next);
        };
        now.insert(middle, out)
    }
}
