// A turn: the path that waits first gets 64 tests, and waits last or leaves.
ghost use Rattle.std.specs.Prelude.{◌+◌, ◌*◌, ◌≤◌, ◌<◌, ◌≡◌, true, length};
ghost use Rattle.turn.specs.Lent.{Left};
ghost use Rattle.machine.specs.Dividing.{staying};
ghost use Rattle.cell.specs.State as State;
ghost use Rattle.cell.specs.Turning as S;
ghost use Rattle.cell.specs.Rows.{InRows};

use crate::clearing::{clear_numbers, clear_words};
use crate::coding::{bring_forward, path_in};
use crate::state::{count_in, state_good, tolerances};
use crate::{COUNT_AT, Entry, Outcome, Served};
use chain::demand;
use machine::close;
use refusal::{Cause, Refusal};
use slice::run_some;
use storing::store;
use turn::{MOST, Machine, Outputs, Setting, Stop, space_in};

const TESTS: usize = 64;

#[tactic(auto, unfolding(crate::specs::Turning::counts_in))]
fn counts_in(space: usize, m: Machine) -> bool
    ensures { result ≡ S.counts_in space m }
{
    m.placed <= m.waiting
        && m.waiting <= space
        && m.given <= space - m.waiting
        && m.inserted <= MOST
        && (0 < m.placed || space <= m.waiting)
}

// A path that goes on keeps its outputs as they are; those of one that ends are closed.
#[tactic(auto, unfolding(crate::specs::Turning::closed_in))]
fn settle(t: Result<Machine, Stop>, out: &mut Outputs) -> Outcome
    requires { staying t ≤ out.old.space }
    ensures outcome { result ≡ S.outcome_in out.old.space t }
    ensures lent { Left out.old (S.closed_in out.old.space t 6 out.old.poses.now) (S.closed_in out.old.space t 5 out.old.joints.now) out.new }
{
    if let Ok(m) = t {
        if m.waiting < out.space {
            return Outcome::Still(m);
        }
    }
    Outcome::Over(close(t, out))
}

impl Entry {
    // The lengths are those that it was admitted with, and its machine is one of such outputs.
    #[tactic(auto, unfolding(crate::specs::Turning::fits_in))]
    fn fits_in(self, poses: usize, joints: usize) -> bool
        ensures { result ≡ S.fits_in self poses joints }
    {
        self.room_poses == poses
            && self.room_joints == joints
            && counts_in(space_in(poses, joints), self.machine)
    }

    // 64 tests.
    fn serve(self, poses: &mut [f64], joints: &mut [f64]) -> Outcome
        requires { S.fits_in self (length poses.old) (length joints.old) ≡ true }
        ensures outcome { result ≡ S.outcome_of self (State.buffers poses.old joints.old) }
        ensures poses { poses.new ≡ (S.left self (State.buffers poses.old joints.old)).poses }
        ensures joints { joints.new ≡ (S.left self (State.buffers poses.old joints.old)).joints }
    {
        let space = space_in(poses.len(), joints.len());
        let mut out = Outputs {
            space,
            poses,
            joints,
        };
        let by = Setting {
            p: self.chain,
            tol: tolerances(self.chord, self.axis),
        };
        let t = run_some(&by, self.machine, TESTS, &mut out);
        settle(t, &mut out)
    }

    fn with_machine(self, machine: Machine) -> Entry
        ensures { result ≡ S.with_machine self machine }
    {
        Entry { machine, ..self }
    }
}

// So many paths wait now: behind them all is zero.
#[tactic(auto, unfolding(crate::specs::Turning::words_left, crate::specs::Turning::numbers_left))]
fn leave(last: usize, words: &mut [u64], numbers: &mut [f64])
    requires { (length words.old ≡ 145) × (length numbers.old ≡ 368) × (last < 16) }
    ensures words { words.new ≡ S.words_left last words.old }
    ensures numbers { numbers.new ≡ S.numbers_left last numbers.old }
{
    clear_words(words, last * 9);
    words[COUNT_AT] = last as u64;
    clear_numbers(numbers, last * 23);
}

// Those behind the first move forward, and the first waits last or leaves.
fn requeue(e: Entry, outcome: Outcome, words: &mut [u64], numbers: &mut [f64])
    requires { (length words.old ≡ 145) × (length numbers.old ≡ 368) × (0 < State.count_in words.old) × (State.count_in words.old ≤ 16) }
    ensures words { words.new ≡ S.words_served e outcome words.old }
    ensures numbers { numbers.new ≡ S.numbers_served e outcome words.old numbers.old }
{
    let number = words[0];
    let last = count_in(words) - 1;
    bring_forward(words, 9, last * 9);
    bring_forward(numbers, 23, last * 23);
    let Outcome::Still(m) = outcome else {
        leave(last, words, numbers);
        return;
    };
    let next = e.with_machine(m);
    store(words, last * 9, &next.words(number));
    store(numbers, last * 23, &next.numbers());
}

// The path that waits first gets 64 tests, where its outputs are as long as admitted.
pub fn turn(
    words: &mut [u64],
    numbers: &mut [f64],
    poses: &mut [f64],
    joints: &mut [f64],
) -> Result<Option<Served>, Refusal>
    ensures answer { result ≡ S.turn_answer words.old numbers.old (State.buffers poses.old joints.old) }
    ensures words { words.new ≡ S.words_turned result words.old numbers.old }
    ensures numbers { numbers.new ≡ S.numbers_turned result words.old numbers.old }
    ensures poses { poses.new ≡ (S.turn_left words.old numbers.old (State.buffers poses.old joints.old)).poses }
    ensures joints { joints.new ≡ (S.turn_left words.old numbers.old (State.buffers poses.old joints.old)).joints }
    ensures rows { InRows words.old numbers.old }
{
    demand(state_good(words, numbers), Cause::LengthsDiffer, 0)?;
    if count_in(words) == 0 {
        return Ok(None);
    }
    let e = path_in(words, numbers);
    let fits = e.fits_in(poses.len(), joints.len());
    demand(fits, Cause::LengthsDiffer, 0)?;
    let path = words[0];
    let outcome = e.serve(poses, joints);
    requeue(e, outcome, words, numbers);
    Ok(Some(Served { path, outcome }))
}
