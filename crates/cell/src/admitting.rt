// Admission: the checks, then a path's items are placed in its outputs, and its entry waits last.
ghost use Rattle.std.specs.Prelude.{◌+◌, ◌-◌, ◌*◌, ◌/◌, ◌≤◌, ◌<◌, ◌≡◌, length};
ghost use Rattle.cell.specs.State as State;
ghost use Rattle.cell.specs.Admitting as S;

use crate::freeing::free_number;
use crate::state::{count_in, state_long, tolerances};
use crate::{COUNT_AT, Entry, MOST_PATHS};
use chain::{Kinematics, Prepared, demand};
use divide::division_check;
use geometry::Vec3;
use refusal::{Cause, Refusal};
use storing::store;
use turn::{Machine, axis_at, space_in};

// The first w numbers to the front, and the others to the place `at`.
fn place_run(from: &[f64], w: usize, to: &mut [f64], at: usize)
    requires { (w ≤ length from.now) × (w ≤ at) × (at + (length from.now - w) ≤ length to.old) }
    ensures { to.new ≡ S.placed_run from.now w to.old at }
{
    store(to, 0, &from[..w]);
    store(to, at, &from[w..]);
}

// The first given item to the front of the outputs, and the others to the end of `space`.
#[tactic(auto, unfolding(crate::specs::Admitting::placed_in))]
fn place(
    space: usize,
    count: usize,
    given: &[f64],
    solved: &[f64],
    poses: &mut [f64],
    joints: &mut [f64],
)
    requires { (length given.now ≡ count * 6) × (length solved.now ≡ count * 5) × (count ≤ space) × (space * 6 ≤ length poses.old) × (space * 5 ≤ length joints.old) }
    ensures poses { poses.new ≡ S.placed_in 6 given.now space count poses.old }
    ensures joints { joints.new ≡ S.placed_in 5 solved.now space count joints.old }
{
    if count == 0 {
        return;
    }
    place_run(given, 6, poses, (space - count + 1) * 6);
    place_run(solved, 5, joints, (space - count + 1) * 5);
}

#[tactic(auto, unfolding(crate::specs::Admitting::idle_machine))]
fn idle_machine(space: usize) -> Machine
    ensures { result ≡ S.idle_machine space }
{
    let nowhere = Vec3 {
        x: 0.0,
        y: 0.0,
        z: 0.0,
    };
    Machine {
        placed: 0,
        waiting: space,
        inserted: 0,
        given: 0,
        left_axis: nowhere,
        end_axis: nowhere,
    }
}

#[tactic(auto, unfolding(crate::specs::Admitting::second_axis))]
fn second_axis(p: Prepared, count: usize, first: Vec3, solved: &[f64]) -> Vec3
    requires { length solved.now ≡ count * 5 }
    ensures { result ≡ S.second_axis p count first solved.now }
{
    if count <= 1 {
        return first;
    }
    axis_at(p, solved, 1)
}

// The first given item is placed, and the others wait.
#[tactic(auto, unfolding(crate::specs::Admitting::machine_on, crate::specs::Admitting::first_machine))]
fn machine_on(p: Prepared, space: usize, count: usize, solved: &[f64]) -> Machine
    requires { (length solved.now ≡ count * 5) × (count ≤ space) }
    ensures { result ≡ S.machine_on p space count solved.now }
{
    if count == 0 {
        return idle_machine(space);
    }
    let left_axis = axis_at(p, solved, 0);
    let end_axis = second_axis(p, count, left_axis, solved);
    Machine {
        placed: 1,
        waiting: space - count + 1,
        inserted: 0,
        given: count - 1,
        left_axis,
        end_axis,
    }
}

// Places the given items, and makes the entry that they begin with.
fn enter(
    k: &Kinematics,
    chord: f64,
    axis: f64,
    given: &[f64],
    solved: &[f64],
    poses: &mut [f64],
    joints: &mut [f64],
) -> Entry
    requires { (length given.now ≡ length given.now / 6 * 6) × (length solved.now ≡ length given.now / 6 * 5) × (length given.now / 6 ≤ State.space_of (State.buffers poses.old joints.old)) }
    ensures entry { result ≡ S.first_entry (S.inputs k.now chord axis given.now solved.now) (State.buffers poses.old joints.old) }
    ensures poses { poses.new ≡ (S.placed (S.inputs k.now chord axis given.now solved.now) (State.buffers poses.old joints.old)).poses }
    ensures joints { joints.new ≡ (S.placed (S.inputs k.now chord axis given.now solved.now) (State.buffers poses.old joints.old)).joints }
{
    let space = space_in(poses.len(), joints.len());
    let count = given.len() / 6;
    place(space, count, given, solved, poses, joints);
    let chain = chain::prepare(k);
    let machine = machine_on(chain, space, count, solved);
    Entry {
        room_poses: poses.len(),
        room_joints: joints.len(),
        chain,
        chord,
        axis,
        machine,
    }
}

// One more waits, behind the others.
fn join(number: u64, e: Entry, words: &mut [u64], numbers: &mut [f64])
    requires { (length words.old ≡ 145) × (length numbers.old ≡ 368) × (State.count_in words.old < 16) }
    ensures words { words.new ≡ S.joined_words words.old number e }
    ensures numbers { numbers.new ≡ S.joined_numbers words.old numbers.old e }
{
    let n = count_in(words);
    words[COUNT_AT] = n as u64 + 1;
    store(words, n * 9, &e.words(number));
    store(numbers, n * 23, &e.numbers());
}

// The checks of the state alone, which stand before all others: its lengths, and a 17th path.
#[tactic(auto, unfolding(crate::specs::Admitting::state_check))]
pub fn state_check(words: &[u64], numbers: &[f64]) -> Result<(), Refusal>
    ensures { result ≡ S.state_check words.now numbers.now }
{
    demand(state_long(words, numbers), Cause::LengthsDiffer, 0)?;
    demand(count_in(words) < MOST_PATHS, Cause::QueueFull, 0)
}

// The checks in order: the state's, then division's own.
#[tactic(auto, unfolding(crate::specs::Admitting::admit_check))]
fn admit_check(
    words: &[u64],
    numbers: &[f64],
    k: &Kinematics,
    chord: f64,
    axis: f64,
    given: &[f64],
    solved: &[f64],
    room_poses: usize,
    room_joints: usize,
) -> Result<(), Refusal>
    ensures { result ≡ S.admit_check words.now numbers.now (S.inputs k.now chord axis given.now solved.now) room_poses room_joints }
{
    state_check(words, numbers)?;
    let tol = tolerances(chord, axis);
    division_check(k, tol, given, solved, room_poses, room_joints)
}

// A path with its own outputs, under the smallest number that no admitted path has.
pub fn admit(
    words: &mut [u64],
    numbers: &mut [f64],
    k: &Kinematics,
    chord: f64,
    axis: f64,
    given: &[f64],
    solved: &[f64],
    poses: &mut [f64],
    joints: &mut [f64],
) -> Result<u64, Refusal>
    ensures answer { let i = S.inputs k.now chord axis given.now solved.now in
        result ≡ S.admitted_in (S.admit_answer words.old numbers.old i (State.buffers poses.old joints.old)) }
    ensures words { let i = S.inputs k.now chord axis given.now solved.now in let b = State.buffers poses.old joints.old in
        words.new ≡ S.words_after (S.admit_answer words.old numbers.old i b) words.old i b }
    ensures numbers { let i = S.inputs k.now chord axis given.now solved.now in let b = State.buffers poses.old joints.old in
        numbers.new ≡ S.numbers_after (S.admit_answer words.old numbers.old i b) words.old numbers.old i b }
    ensures poses { let i = S.inputs k.now chord axis given.now solved.now in let b = State.buffers poses.old joints.old in
        poses.new ≡ (S.outputs_after (S.admit_answer words.old numbers.old i b) i b).poses }
    ensures joints { let i = S.inputs k.now chord axis given.now solved.now in let b = State.buffers poses.old joints.old in
        joints.new ≡ (S.outputs_after (S.admit_answer words.old numbers.old i b) i b).joints }
{
    admit_check(
        words,
        numbers,
        k,
        chord,
        axis,
        given,
        solved,
        poses.len(),
        joints.len(),
    )?;
    if space_in(poses.len(), joints.len()) < given.len() / 6 {
        poses.fill(0.0);
        joints.fill(0.0);
        return Err(Refusal::new(Cause::NoSpace, 0));
    }
    let e = enter(k, chord, axis, given, solved, poses, joints);
    let number = free_number(words, count_in(words));
    join(number, e, words, numbers);
    Ok(number)
}
