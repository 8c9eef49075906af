// The division of a path in two lent outputs, at the front of which its items stand: all but the first are brought to
// the end, the machine runs, and what it leaves behind is cleared.
ghost use Rattle.std.specs.Prelude.{◌+◌, ◌-◌, ◌*◌, ◌≤◌, ◌<◌, ◌≡◌, length, take, drop};
ghost use Rattle.float.specs.Helpers.{nought};
ghost use Rattle.lists.specs.Padding.{padded};
ghost use Rattle.turn.specs.Items.{items_in};
ghost use Rattle.turn.specs.Lent.{Same, Left};
ghost use Rattle.turn.specs.Turning.{axis_at, end_at_start, begun};
ghost use Rattle.machine.specs.Dividing as S;

use chain::Prepared;
use geometry::Vec3;
use slice::run_some;
use storing::store;
use turn::{GivenPath, Machine, Outputs, Setting, Stop, axis_at};

// Brings all items but the first from the front to the end of the space. That there is an item and that all have space
// is asked here, by `begin`, `divide_after` and the two entries. Tried: the count and the outputs in one struct, with
// the two facts as ghost fields. No proof: the check of borrows takes no loan of a slice of `Outputs`, which has ghost
// fields, out of another struct, be it there by value or by `&mut`.
fn bring(count: usize, out: &mut Outputs)
    requires { (0 < count) × (count ≤ out.old.space) }
    ensures same { Same out.old out.new }
    ensures first { take 1 (items_in out.old.space out.new.poses.now out.new.joints.now) ≡ take 1 (items_in count out.old.poses.now out.old.joints.now) }
    ensures rest { drop (out.old.space - count + 1) (items_in out.old.space out.new.poses.now out.new.joints.now) ≡ drop 1 (items_in count out.old.poses.now out.old.joints.now) }
{
    let to = out.space - count + 1;
    out.poses.copy_within(6..count * 6, to * 6);
    out.joints.copy_within(5..count * 5, to * 5);
}

fn end_at_start(p: Prepared, space: usize, count: usize, axis: Vec3, joints: &[f64]) -> Vec3
    requires { (count ≤ space) × (space * 5 ≤ length joints.now) }
    ensures { result ≡ end_at_start p space count axis joints.now }
{
    if count <= 1 {
        return axis;
    }
    axis_at(p, joints, space - count + 1)
}

// The first item is placed, and the others wait.
fn begin(p: Prepared, count: usize, had: u64, out: &Outputs) -> Machine
    requires { (0 < count) × (count ≤ out.now.space) }
    ensures { result ≡ begun p out.now.space count had out.now.joints.now }
{
    let left_axis = axis_at(p, out.joints, 0);
    let end_axis = end_at_start(p, out.space, count, left_axis, out.joints);
    Machine {
        placed: 1,
        waiting: out.space - count + 1,
        inserted: had,
        given: count - 1,
        left_axis,
        end_axis,
    }
}

// Turn after turn, until nothing waits or one is refused: no outputs have work for so many turns. By the loop that a
// part of a division takes too, so that a turn stands in one place of the compiled program.
pub fn run(by: &Setting, m: Machine, out: &mut Outputs) -> Result<Machine, Stop>
    requires { S.Ready by.now.p by.now.tol out.old.space m out.old.poses.now out.old.joints.now }
    ensures same { Same out.old out.new }
    ensures ran { S.Ran (S.halved_from by.now.p by.now.tol out.old.space m out.old.poses.now out.old.joints.now) out.old.space out.new.poses.now out.new.joints.now result }
{
    run_some(by, m, usize::MAX, out)
}

fn staying(turn: Result<Machine, Stop>) -> usize
    ensures { result ≡ S.staying turn }
{
    turn.map_or(0, |last| last.placed)
}

fn answer_in(turn: Result<Machine, Stop>) -> Result<u64, Stop>
    ensures { result ≡ S.answer_in turn }
{
    turn.map(|last| last.inserted)
}

// What is not placed is +0.0; after a refusal, everything.
pub fn close(turn: Result<Machine, Stop>, out: &mut Outputs) -> Result<u64, Stop>
    requires { S.staying turn ≤ out.old.space }
    ensures answer { result ≡ S.answer_in turn }
    ensures lent { Left out.old (padded (length out.old.poses.now) nought (take (S.staying turn * 6) out.old.poses.now)) (padded (length out.old.joints.now) nought (take (S.staying turn * 5) out.old.joints.now)) out.new }
{
    let n = staying(turn);
    path::clear_from(out.poses, n * 6);
    path::clear_from(out.joints, n * 5);
    answer_in(turn)
}

// The division of the first `count` items of the two outputs, after `had` insertions elsewhere.
pub fn divide_after(by: &Setting, count: usize, had: u64, out: &mut Outputs) -> Result<u64, Stop>
    requires { (had ≤ 10000) × ((0 < count) × (count ≤ out.old.space)) }
    ensures answer { result ≡ S.divided_in (S.division_after had by.now.p by.now.tol out.old.space (items_in count out.old.poses.now out.old.joints.now)) }
    ensures lent { S.Over (S.division_after had by.now.p by.now.tol out.old.space (items_in count out.old.poses.now out.old.joints.now)) out.old out.new }
{
    bring(count, out);
    let m = begin(by.p, count, had, out);
    let turn = run(by, m, out);
    close(turn, out)
}

// The same with none inserted before, and the poses lent elsewhere; the joint sets stand at the front of their output,
// so that the two are no `GivenPath`, which would borrow what `out` writes.
pub fn divide_solved(
    by: &Setting,
    count: usize,
    given: &[f64],
    out: &mut Outputs,
) -> Result<u64, Stop>
    requires { (length given.now ≡ count * 6) × ((0 < count) × (count ≤ out.old.space)) }
    ensures answer { result ≡ S.divided_in (S.division by.now.p by.now.tol out.old.space (items_in count given.now out.old.joints.now)) }
    ensures lent { S.Over (S.division by.now.p by.now.tol out.old.space (items_in count given.now out.old.joints.now)) out.old out.new }
{
    store(out.poses, 0, given);
    divide_after(by, count, 0, out)
}

// The same with both lent elsewhere.
pub fn divide_given(by: &Setting, given: &GivenPath, out: &mut Outputs) -> Result<u64, Stop>
    requires { (0 < given.now.count) × (given.now.count ≤ out.old.space) }
    ensures answer { result ≡ S.divided_in (S.division by.now.p by.now.tol out.old.space (items_in given.now.count given.now.poses.now given.now.joints.now)) }
    ensures lent { S.Over (S.division by.now.p by.now.tol out.old.space (items_in given.now.count given.now.poses.now given.now.joints.now)) out.old out.new }
{
    store(out.joints, 0, given.joints);
    divide_solved(by, given.count, given.poses, out)
}
