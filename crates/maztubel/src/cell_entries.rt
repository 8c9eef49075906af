// The entries of the dispatcher of a cell: up to 16 paths that are divided side by side, 64 tests in turn. Its state is
// lent with each call. What a call is lent to write is written in every call; the path 16 stands for none.
ghost use Rattle.std.specs.Prelude.{◌≡◌};
ghost use Rattle.cell.specs.State.{buffers};
ghost use Rattle.cell.specs.Turning.{turn_answer, turn_left, words_turned, numbers_turned};
ghost use Rattle.cell.specs.Asking.{next_answer, count_answer};
ghost use Rattle.cell.specs.Admitting.{admitted_in};
ghost use Rattle.cell.specs.Rows.{InRows};
ghost use Rattle.maztubel.specs.Lent as Lent;
ghost use Rattle.maztubel.specs.CellEntries as S;

use crate::lent::{hand_back, number_in};
use cell::{Outcome, Served};
use chain::{Kinematics, demand};
use refusal::{Cause, Refusal};

// The number of no path.
const NO_PATH: u64 = 16;

pub fn maztubel_admit(
    words: &mut [u64],
    numbers: &mut [f64],
    chain: &[u8],
    poses: &[f64],
    joints: &[f64],
    chord: f64,
    axis: f64,
    out_poses: &mut [f64],
    out_joints: &mut [f64],
    path: &mut u64,
    at: &mut u64,
    letter: &mut u8,
) -> u32
    ensures number { let a = S.asked chain.now chord axis poses.now joints.now out_poses.old out_joints.old in
        result ≡ Lent.number_in (admitted_in (S.admit_of words.old numbers.old a)) }
    ensures path { let a = S.asked chain.now chord axis poses.now joints.now out_poses.old out_joints.old in
        path.new ≡ S.number_or S.no_path (admitted_in (S.admit_of words.old numbers.old a)) }
    ensures place { let a = S.asked chain.now chord axis poses.now joints.now out_poses.old out_joints.old in
        at.new ≡ Lent.place_in (admitted_in (S.admit_of words.old numbers.old a)) }
    ensures named { let a = S.asked chain.now chord axis poses.now joints.now out_poses.old out_joints.old in
        letter.new ≡ Lent.letter_in (admitted_in (S.admit_of words.old numbers.old a)) }
    ensures words { let a = S.asked chain.now chord axis poses.now joints.now out_poses.old out_joints.old in
        words.new ≡ S.words_admitted (S.admit_of words.old numbers.old a) words.old a }
    ensures numbers { let a = S.asked chain.now chord axis poses.now joints.now out_poses.old out_joints.old in
        numbers.new ≡ S.numbers_admitted (S.admit_of words.old numbers.old a) words.old numbers.old a }
    ensures poses { let a = S.asked chain.now chord axis poses.now joints.now out_poses.old out_joints.old in
        out_poses.new ≡ (S.outputs_admitted (S.admit_of words.old numbers.old a) a).poses }
    ensures joints { let a = S.asked chain.now chord axis poses.now joints.now out_poses.old out_joints.old in
        out_joints.new ≡ (S.outputs_admitted (S.admit_of words.old numbers.old a) a).joints }
    ensures rows { InRows words.old numbers.old }
{
    let said = admit_of(
        words, numbers, chain, poses, joints, chord, axis, out_poses, out_joints,
    );
    *path = number_or(NO_PATH, said);
    hand_back(&said, at, letter)
}

pub fn maztubel_next(words: &[u64], path: &mut u64) -> u32
    ensures number { result ≡ Lent.number_in (next_answer words.now) }
    ensures path { path.new ≡ S.next_path (next_answer words.now) }
{
    let said = cell::next(words);
    *path = next_path(said);
    number_in(&said)
}

pub fn maztubel_turn(
    words: &mut [u64],
    numbers: &mut [f64],
    out_poses: &mut [f64],
    out_joints: &mut [f64],
    path: &mut u64,
    ended: &mut u8,
    inserted: &mut u64,
) -> u32
    ensures number { let answer = turn_answer words.old numbers.old (buffers out_poses.old out_joints.old) in
        result ≡ S.turn_number answer }
    ensures path { let answer = turn_answer words.old numbers.old (buffers out_poses.old out_joints.old) in
        path.new ≡ S.turn_path answer }
    ensures ended { let answer = turn_answer words.old numbers.old (buffers out_poses.old out_joints.old) in
        ended.new ≡ S.turn_ended answer }
    ensures count { let answer = turn_answer words.old numbers.old (buffers out_poses.old out_joints.old) in
        inserted.new ≡ S.turn_count answer }
    ensures words { let answer = turn_answer words.old numbers.old (buffers out_poses.old out_joints.old) in
        words.new ≡ words_turned answer words.old numbers.old }
    ensures numbers { let answer = turn_answer words.old numbers.old (buffers out_poses.old out_joints.old) in
        numbers.new ≡ numbers_turned answer words.old numbers.old }
    ensures poses { out_poses.new ≡ (turn_left words.old numbers.old (buffers out_poses.old out_joints.old)).poses }
    ensures joints { out_joints.new ≡ (turn_left words.old numbers.old (buffers out_poses.old out_joints.old)).joints }
    ensures rows { InRows words.old numbers.old }
{
    let said = cell::turn(words, numbers, out_poses, out_joints);
    let told = told_of(said);
    *path = told.path;
    *ended = told.ended;
    *inserted = told.inserted;
    told.number
}

pub fn maztubel_count(words: &[u64], path: u64, inserted: &mut u64) -> u32
    ensures number { result ≡ Lent.number_in (count_answer words.now path) }
    ensures count { inserted.new ≡ S.number_or 0 (count_answer words.now path) }
{
    let said = cell::count(words, path);
    *inserted = number_or(0, said);
    number_in(&said)
}

// The state's checks stand before the path's lengths, and these before the chain's bytes.
fn admit_of(
    words: &mut [u64],
    numbers: &mut [f64],
    chain: &[u8],
    poses: &[f64],
    joints: &[f64],
    chord: f64,
    axis: f64,
    out_poses: &mut [f64],
    out_joints: &mut [f64],
) -> Result<u64, Refusal>
    ensures answer { let a = S.asked chain.now chord axis poses.now joints.now out_poses.old out_joints.old in
        result ≡ admitted_in (S.admit_of words.old numbers.old a) }
    ensures words { let a = S.asked chain.now chord axis poses.now joints.now out_poses.old out_joints.old in
        words.new ≡ S.words_admitted (S.admit_of words.old numbers.old a) words.old a }
    ensures numbers { let a = S.asked chain.now chord axis poses.now joints.now out_poses.old out_joints.old in
        numbers.new ≡ S.numbers_admitted (S.admit_of words.old numbers.old a) words.old numbers.old a }
    ensures poses { let a = S.asked chain.now chord axis poses.now joints.now out_poses.old out_joints.old in
        out_poses.new ≡ (S.outputs_admitted (S.admit_of words.old numbers.old a) a).poses }
    ensures joints { let a = S.asked chain.now chord axis poses.now joints.now out_poses.old out_joints.old in
        out_joints.new ≡ (S.outputs_admitted (S.admit_of words.old numbers.old a) a).joints }
    ensures rows { InRows words.old numbers.old }
{
    cell::state_check(words, numbers)?;
    let whole = divide::four_whole(poses.len(), joints.len(), out_poses.len(), out_joints.len());
    demand(whole, Cause::LengthsDiffer, 0)?;
    let mut k = Kinematics::default();
    chain::read_chain_into(chain, &mut k)?;
    cell::admit(
        words, numbers, &k, chord, axis, poses, joints, out_poses, out_joints,
    )
}

fn number_or(other: u64, said: Result<u64, Refusal>) -> u64
    ensures { result ≡ S.number_or other said }
{
    match said {
        Ok(n) => n,
        Err(_) => other,
    }
}

fn next_path(said: Result<Option<u64>, Refusal>) -> u64
    ensures { result ≡ S.next_path said }
{
    match said {
        Ok(Some(path)) => path,
        Ok(None) => NO_PATH,
        Err(_) => NO_PATH,
    }
}

// What C is told of a turn.
#[derive(Clone, Copy)]
struct Told {
    path: u64,
    ended: u8,
    inserted: u64,
    number: u32,
}

fn nobody(number: u32) -> Told
    ensures number { result.number ≡ number }
    ensures path { result.path ≡ S.no_path }
    ensures ended { result.ended ≡ 0 }
    ensures count { result.inserted ≡ 0 }
{
    Told {
        path: NO_PATH,
        ended: 0,
        inserted: 0,
        number,
    }
}

fn served(s: Served) -> Told
    ensures number { result.number ≡ S.outcome_number s.outcome }
    ensures path { result.path ≡ s.path }
    ensures ended { result.ended ≡ S.outcome_ended s.outcome }
    ensures count { result.inserted ≡ S.outcome_count s.outcome }
{
    match s.outcome {
        Outcome::Still(m) => Told {
            path: s.path,
            ended: 0,
            inserted: m.inserted,
            number: 0,
        },
        Outcome::Over(Ok(n)) => Told {
            path: s.path,
            ended: 1,
            inserted: n,
            number: 0,
        },
        Outcome::Over(Err(stop)) => Told {
            path: s.path,
            ended: 1,
            inserted: stop.inserted(),
            number: stop.cause().number(),
        },
    }
}

fn told_of(said: Result<Option<Served>, Refusal>) -> Told
    ensures number { result.number ≡ S.turn_number said }
    ensures path { result.path ≡ S.turn_path said }
    ensures ended { result.ended ≡ S.turn_ended said }
    ensures count { result.inserted ≡ S.turn_count said }
{
    match said {
        Ok(Some(s)) => served(s),
        Ok(None) => nobody(0),
        Err(r) => nobody(r.cause.number()),
    }
}
