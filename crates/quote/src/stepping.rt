// The halving that keeps no list: one test after another, with the midpoints that wait in a stack of joint sets. As in
// division's machine a test costs one `forward`: the axes that the two joint sets reach were evaluated before, and the
// poses of the first 5,000 that wait are kept in the scratch of tips.
ghost use Rattle.std.specs.Prelude.{◌+◌, ◌*◌, ◌≤◌, ◌<◌, ◌≡◌, length};
ghost use Rattle.turn.specs.Items.{items_in, joints_in};
ghost use Rattle.turn.specs.Turning.{axis_at, reached};
ghost use Rattle.quote.specs.Quotation.{figures};
ghost use Rattle.quote.specs.Quotation as Q;
ghost use Rattle.quote.specs.QuotationSteps as S;

use crate::{Figures, Place, QuoteError, Quoter};
use chain::{Joints, Prepared, ToolPose};
use geometry::Vec3;
use middle::{Item, Tolerances, joints_unchanged, pose_of, verdict_with};
use turn::{GivenPath, MOST, Stop, joints_in, put_pose};

// What is quoted: a given path of at least one pose and at most 100,000, with its chain and the tolerances.
#[derive(Clone, Copy)]
pub struct QuotedPath<'a> {
    pub p: Prepared,
    pub tol: Tolerances,
    pub given: GivenPath<'a>,
    pub ghost some: { 0 < given.count },
    pub ghost few: { given.count ≤ 100000 },
}

// How many joint sets may wait, and how many numbers they are, and their tips.
pub const STACK: usize = 10000;

pub const NUMBERS: usize = STACK * 5;

pub const TIPS: usize = STACK * 3;

// Below this index of the stack no pose is kept: a pose takes the place of two tips.
const BARE: usize = 5000;

// How many forward evaluations a test counts: the axes that the two joint sets reach, and their midpoint; of a strict
// test both quarters too, also where it fails in the middle and they are not evaluated.
const PER_TEST: u64 = 3;

const PER_STRICT_TEST: u64 = 5;

fn per_test(tol: Tolerances) -> u64
    ensures { result ≡ Q.per_test tol }
{
    if tol.strict {
        return PER_STRICT_TEST;
    }
    PER_TEST
}

#[tactic(auto, unfolding(crate::specs::Quotation::cost_of))]
fn cost(tol: Tolerances, left: Item, right: Item) -> u64
    ensures { result ≡ Q.cost_of tol left right }
{
    if joints_unchanged(left.joints, right.joints) {
        return 0;
    }
    per_test(tol)
}

#[tactic(auto, unfolding(crate::specs::QuotationSteps::arrived))]
fn arrived(p: Prepared, j: Joints) -> Item
    ensures { result ≡ S.arrived p j }
{
    let pose = pose_of(p, j);
    Item { pose, joints: j }
}

// Keeps the pose of the joint set at that index of the stack, where there is space for it.
#[tactic(auto, unfolding(crate::specs::QuotationSteps::keep_pose))]
fn keep_pose(pose: ToolPose, tips: &mut [f64; TIPS], i: usize)
    requires { i < 10000 }
    ensures { tips.new ≡ S.keep_pose pose tips.old i }
{
    if i >= BARE {
        put_pose(pose, tips, (i - BARE) * 6);
    }
}

// An inserted item has its axis in its own pose.
#[tactic(auto, unfolding(crate::specs::QuotationSteps::waiting_axis))]
fn waiting_axis(top: usize, right: Item, end_axis: Vec3) -> Vec3
    ensures { result ≡ S.waiting_axis top right end_axis }
{
    if top == STACK {
        return end_axis;
    }
    right.pose.axis
}

// The bounds of a place are no ghost fields: `past` and `with_midpoint` of specs/ make a place of any numbers, and so
// could not be written. A struct around it is no plainer: of the bounds it could keep `top` alone, since that the
// evaluations stay below theirs is not known of one step; the loop's invariant has it. `tested`, with its bound, is no
// struct either: `cost` alone would make one, and each of the four clauses that say `tested ≤ 10` would name the
// number as `tested.evaluations` instead.
impl Place {
    fn past(&mut self, right: Item, tested: u64)
        requires { ((self.old.top ≤ 10000) × (self.old.next ≤ 100000)) × ((self.old.evaluations ≤ 1000000000) × (tested ≤ 10)) }
        ensures { self.new ≡ S.past self.old right tested }
    {
        self.left = right;
        self.evaluations += tested;
        if self.top == STACK {
            self.next += 1;
        } else {
            self.top += 1;
        }
    }

    fn with_midpoint(&mut self, tested: u64)
        requires { ((0 < self.old.top) × (self.old.inserted < 10000)) × ((self.old.evaluations ≤ 1000000000) × (tested ≤ 10)) }
        ensures { self.new ≡ S.with_midpoint self.old tested }
    {
        self.top -= 1;
        self.inserted += 1;
        self.evaluations = self.evaluations + tested + 1;
    }
}

// A step changes the state where it stands: with each given back by value it is slower by its copies.
impl Quoter {
    // A midpoint more is one too many, or waits before the first that does. None is the only way in which a step ends
    // the run, and the definitions answer an Option too: with a `Result<(), Stop>` this contract and those of `advance`
    // and `run` would have to say besides that the stop is always the one that `figures` names.
    fn insert(
        &mut self,
        middle: Item,
        tested: u64,
        stack: &mut [f64; NUMBERS],
        tips: &mut [f64; TIPS],
    ) -> Option<()>
        requires { ((10000 ≤ self.old.place.top + self.old.place.inserted) × (self.old.place.inserted ≤ 10000)) × (((self.old.place.evaluations ≤ 1000000000) × (tested ≤ 10)) × (self.old.place.top ≤ 10000)) }
        ensures step { S.left_by result self.new ≡ S.inserting self.old middle tested }
        ensures stack { stack.new ≡ S.if_inserted self.old.place middle stack.old }
        ensures tips { tips.new ≡ S.if_kept self.old.place middle tips.old }
    {
        if self.place.inserted == MOST {
            return None;
        }
        path::put_joints(middle.joints, stack, (self.place.top - 1) * 5);
        keep_pose(middle.pose, tips, self.place.top - 1);
        self.place.with_midpoint(tested);
        self.right = middle;
        self.right_axis = middle.pose.axis;
        Some(())
    }
}

impl QuotedPath<'_> {
    #[tactic(auto, unfolding(crate::specs::QuotationSteps::next_given))]
    fn next_given(&self, next: usize) -> usize
        ensures same { result ≡ S.next_given self.now.given.count next }
        ensures within { result < self.now.given.count }
    {
        next.min(self.given.count - 1)
    }

    // A joint set on the stack with the pose that it reaches: that was kept, unless more than 5,000 wait.
    #[tactic(auto, unfolding(crate::specs::QuotationSteps::arrived))]
    fn stacked(&self, top: usize, stack: &[f64; NUMBERS], tips: &[f64; TIPS]) -> Item
        requires { (top < 10000) × S.PosesKept self.now.p top stack.now tips.now }
        ensures { result ≡ S.arrived self.now.p (joints_in stack.now (top * 5)) }
    {
        let joints = joints_in(stack, top * 5);
        if top < BARE {
            return arrived(self.p, joints);
        }
        let pose = path::pose_in(tips, (top - BARE) * 6);
        Item { pose, joints }
    }

    // `top == STACK` is an empty stack, as an index at the end is of a slice: an `Option` of the top would be matched
    // in the same four functions.
    #[tactic(auto, unfolding(crate::specs::QuotationSteps::first_waiting))]
    fn first_waiting(&self, s: Place, stack: &[f64; NUMBERS], tips: &[f64; TIPS]) -> Item
        requires { (s.top ≤ 10000) × S.PosesKept self.now.p s.top stack.now tips.now }
        ensures { let g = self.now.given in result ≡ S.first_waiting self.now.p g.count s.top s.next g.poses.now g.joints.now stack.now }
    {
        if s.top == STACK {
            return self.given.item(self.next_given(s.next));
        }
        self.stacked(s.top, stack, tips)
    }

    // The place with all that is kept of the evaluations.
    fn evaluated(
        &self,
        s: Place,
        left_axis: Vec3,
        end_axis: Vec3,
        stack: &[f64; NUMBERS],
        tips: &[f64; TIPS],
    ) -> Quoter
        requires { ((s.top ≤ 10000) × S.PosesKept self.now.p s.top stack.now tips.now) × ((left_axis ≡ reached self.now.p s.left) × (end_axis ≡ axis_at self.now.p self.now.given.joints.now (S.next_given self.now.given.count s.next))) }
        ensures { let g = self.now.given in result ≡ S.keeping self.now.p g.count s g.poses.now g.joints.now stack.now }
    {
        let right = self.first_waiting(s, stack, tips);
        let right_axis = waiting_axis(s.top, right, end_axis);
        Quoter {
            place: s,
            left_axis,
            right,
            right_axis,
            end_axis,
        }
    }

    // The axis of the next given joint set, once the first that waits stays: it is another where that was a given one.
    // Not of a `Place`: the top is the one before a step, and `next` the one after it.
    #[tactic(auto, unfolding(crate::specs::QuotationSteps::end_after))]
    fn end_after(&self, top: usize, next: usize, end_axis: Vec3) -> Vec3
        ensures { let g = self.now.given in result ≡ S.end_after self.now.p g.count top next end_axis g.joints.now }
    {
        if top == STACK {
            return self.given.axis(self.p, self.next_given(next));
        }
        end_axis
    }

    // The first that waits stays.
    fn move_on(&self, m: &mut Quoter, tested: u64, stack: &[f64; NUMBERS], tips: &[f64; TIPS])
        requires { let g = self.now.given in (S.Runs g.count m.old.place × (m.old.place.top + m.old.place.next < 10000 + g.count)) × ((m.old ≡ S.keeping self.now.p g.count m.old.place g.poses.now g.joints.now stack.now) × ((tested ≤ 10) × S.PosesKept self.now.p m.old.place.top stack.now tips.now)) }
        ensures { let g = self.now.given in m.new ≡ S.keeping self.now.p g.count (S.past m.old.place m.old.right tested) g.poses.now g.joints.now stack.now }
    {
        let top = m.place.top;
        m.place.past(m.right, tested);
        m.left_axis = m.right_axis;
        m.end_axis = self.end_after(top, m.place.next, m.end_axis);
        m.right = self.first_waiting(m.place, stack, tips);
        m.right_axis = waiting_axis(m.place.top, m.right, m.end_axis);
    }

    // One test of two neighbours, and what comes of it. Where it divides them, their joints differ, so that it counts.
    fn advance(
        &self,
        m: &mut Quoter,
        stack: &mut [f64; NUMBERS],
        tips: &mut [f64; TIPS],
    ) -> Option<()>
        requires { let g = self.now.given in (S.Runs g.count m.old.place × (m.old.place.top + m.old.place.next < 10000 + g.count)) × ((m.old ≡ S.keeping self.now.p g.count m.old.place g.poses.now g.joints.now stack.old) × S.PosesKept self.now.p m.old.place.top stack.old tips.old) }
        ensures step { let g = self.now.given in S.left_by result m.new ≡ S.stepped self.now.p g.count g.poses.now g.joints.now stack.new (S.place_after self.now.p self.now.tol m.old.place m.old.right) }
        ensures stack { stack.new ≡ S.stack_after self.now.p self.now.tol m.old.place m.old.right stack.old }
        ensures kept { S.KeptOf self.now.p stack.new tips.new (S.left_by result m.new) }
    {
        let left = m.place.left;
        let said = verdict_with(
            &self.p,
            &self.tol,
            &left,
            &m.right,
            &m.left_axis,
            &m.right_axis,
        );
        let Some(middle) = said else {
            let tested = cost(self.tol, left, m.right);
            self.move_on(m, tested, stack, tips);
            return Some(());
        };
        m.insert(middle, per_test(self.tol), stack, tips)
    }

    // The first given item stays, and the others wait.
    fn begin(&self, stack: &[f64; NUMBERS], tips: &[f64; TIPS]) -> Quoter
        ensures { let g = self.now.given in result ≡ S.keeping self.now.p g.count (S.begun g.poses.now g.joints.now) g.poses.now g.joints.now stack.now }
    {
        let left = self.given.item(0);
        let s = Place {
            left,
            top: STACK,
            next: 1,
            inserted: 0,
            evaluations: 0,
        };
        let left_axis = self.given.axis(self.p, 0);
        let end_axis = self.given.axis(self.p, self.next_given(1));
        self.evaluated(s, left_axis, end_axis, stack, tips)
    }

    #[tactic(auto, unfolding(crate::specs::QuotationSteps::goes_on))]
    fn goes_on(&self, s: Place) -> bool
        requires { (s.top ≤ 10000) × (s.next ≤ self.now.given.count) }
        ensures { result ≡ S.goes_on self.now.given.count s }
    {
        s.top + s.next < STACK + self.given.count
    }

    // Test after test, until nothing waits or one is too many. How many tests that takes is not known before.
    fn run(&self, stack: &mut [f64; NUMBERS], tips: &mut [f64; TIPS]) -> Option<Quoter>
        ensures answer { let g = self.now.given in Q.quotation self.now.p self.now.tol (items_in g.count g.poses.now g.joints.now) ≡ S.answer_in g.count result }
        ensures few { S.Few result }
    {
        let mut state = self.begin(stack, tips);
        while self.goes_on(state.place) {
            self.advance(&mut state, stack, tips)?;
        }
        Some(state)
    }

    // The figures of what the machine comes to.
    pub fn figures(
        &self,
        stack: &mut [f64; NUMBERS],
        tips: &mut [f64; TIPS],
    ) -> Result<Figures, QuoteError>
        ensures { let g = self.now.given in result ≡ Q.quotation self.now.p self.now.tol (items_in g.count g.poses.now g.joints.now) }
    {
        let last = self.run(stack, tips).ok_or(Stop::TooMany(MOST))?;
        Ok(self.served(last.place))
    }

    fn served(&self, s: Place) -> Figures
        requires { s.inserted ≤ 10000 }
        ensures { result ≡ figures s.inserted (self.now.given.count + s.inserted) s.evaluations }
    {
        Figures {
            inserted: s.inserted,
            poses: self.given.count as u64 + s.inserted,
            evaluations: s.evaluations,
        }
    }
}
