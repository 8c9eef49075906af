// The answer to a job: its path solved from angles zero and divided, with the cable numbers of its two rotaries, or
// its first refusal, as text.
ghost use Rattle.std.specs.Prelude.{◌/◌, ◌≤◌, ◌≡◌, length, take};
ghost use Rattle.divide.specs.Subdividing.{division_in, joints_left};
ghost use Rattle.job.specs.Cable.{joint_sets};
ghost use Rattle.job.specs.Telling.{text_of};
ghost use Rattle.post.specs.declared.answering.TheConstants.{DIVIDED, JOINTS, POSES, TEXT};
ghost use Rattle.post.specs.Posting as S;
ghost use Rattle.post.specs.Steps as Steps;

use chain::Kinematics;
use divide::DivisionError;
use job::{Figures, Job, JobError};
use refusal::Refusal;

// How many numbers the 1,362 poses are that a job may have, the 700 poses of its path, and the joint sets of those; and
// how many bytes the text of so many.
pub const POSES: usize = 8172;

pub const DIVIDED: usize = 4200;

pub const JOINTS: usize = 3500;

pub const TEXT: usize = 65536;

// Room for all of it.
#[derive(Drop)]
pub struct Room {
    pub poses: [f64; POSES],
    pub divided: [f64; DIVIDED],
    pub joints: [f64; JOINTS],
    pub text: [u8; TEXT],
    ghost for_poses: { length poses ≡ POSES },
    ghost for_divided: { length divided ≡ DIVIDED },
    ghost for_joints: { length joints ≡ JOINTS },
    ghost for_text: { length text ≡ TEXT },
}

// The front of the text is the answer.
pub fn post(bytes: &[u8], room: &mut Room) -> usize
    ensures end { result ≡ length (S.post bytes.now) }
    ensures text { take result room.new.text ≡ S.post bytes.now }
    ensures served { S.NeverRefused bytes.now }
{
    match job::read_job(bytes) {
        Ok(j) => post_job(bytes, j, room),
        Err(r) => tell(Err(r.into()), &[], &mut room.text),
    }
}

fn post_job(bytes: &[u8], j: Job, room: &mut Room) -> usize
    requires { Steps.IsJob bytes.now j }
    ensures end { result ≡ length (S.path_text j.chain (S.path_of bytes.now j)) }
    ensures text { take result room.new.text ≡ S.path_text j.chain (S.path_of bytes.now j) }
    ensures served { S.Cabled j.chain (S.path_of bytes.now j) }
{
    let k = j.chain;
    let given = j.poses as usize;
    let said = solve(bytes, j, room);
    let numbers = 5 * path_length(given, said);
    conclude(&k, said, &room.joints[..numbers], &mut room.text)
}

// The path of a job, in lent joints. Its poses have room, so that copying them out of the bytes is not refused.
fn solve(bytes: &[u8], j: Job, room: &mut Room) -> Result<u64, DivisionError>
    requires { Steps.IsJob bytes.now j }
    ensures answer { result ≡ division_in (S.path_of bytes.now j) }
    ensures joints { room.new.joints ≡ joints_left (S.path_of bytes.now j) room.old.joints }
    ensures served { S.Cabled j.chain (S.path_of bytes.now j) }
{
    job::job_poses(bytes, &mut room.poses)?;
    let numbers = 6 * j.poses as usize;
    divide::solve_and_divide(
        &j.chain,
        &room.poses[..numbers],
        None,
        j.cone,
        j.tol,
        &mut room.divided,
        &mut room.joints,
    )
}

// ---- how it ended
fn path_length(given: usize, said: Result<u64, DivisionError>) -> usize
    requires { Steps.path_length given said ≤ 700 }
    ensures { result ≡ Steps.path_length given said }
{
    said.map_or(0, |n| given + n as usize)
}

// No `From<DivisionError>`: both types are of other crates, and what a job tells of a stop is this program's choice.
fn ended_by(
    k: &Kinematics,
    said: Result<u64, DivisionError>,
    path: &[f64],
) -> Result<Figures, JobError>
    ensures { result ≡ S.ended_by k.now said path.now }
{
    match said {
        Ok(n) => wound(k, n, path),
        Err(DivisionError::Refused(r)) => Err(r.into()),
        Err(DivisionError::AtPose(r)) => Err(JobError::AtPose(r)),
        Err(DivisionError::Stopped(stop)) => Err(Refusal::from(stop).into()),
    }
}

// The cable numbers of both rotaries on a path.
#[tactic(auto, unfolding(crate::specs::Posting::wound))]
fn wound(k: &Kinematics, inserted: u64, path: &[f64]) -> Result<Figures, JobError>
    ensures { result ≡ S.wound k.now inserted path.now }
{
    let first = job::cable_number(k, path, 0)?;
    let second = job::cable_number(k, path, 1)?;
    Ok(Figures {
        inserted,
        first,
        second,
    })
}

// ---- the text
fn conclude(
    k: &Kinematics,
    said: Result<u64, DivisionError>,
    path: &[f64],
    text: &mut [u8],
) -> usize
    requires { (length path.now / 5 ≤ 700) × (65536 ≤ length text.old) }
    ensures end { result ≡ length (Steps.conclusion k.now said path.now) }
    ensures text { take result text.new ≡ Steps.conclusion k.now said path.now }
{
    let ended = ended_by(k, said, path);
    tell(ended, path, text)
}

// No text of 700 lines is refused for want of room.
fn tell(ended: Result<Figures, JobError>, path: &[f64], text: &mut [u8]) -> usize
    requires { (length path.now / 5 ≤ 700) × (65536 ≤ length text.old) }
    ensures end { result ≡ length (text_of ended (joint_sets path.now)) }
    ensures text { take result text.new ≡ text_of ended (joint_sets path.now) }
{
    job::answer_text(ended, path, text).unwrap_or(0)
}
