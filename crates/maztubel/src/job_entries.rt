// The entries of a job: what its bytes say, its poses in lent numbers, and the cable number of a rotary on a path. A
// refusal keeps all that is lent but the place, and the letter where there is one.
ghost use Rattle.std.specs.Prelude.{◌≡◌, length};
ghost use Rattle.chain.specs.ChainBytes.{read_chain};
ghost use Rattle.job.specs.JobBytes.{read_job};
ghost use Rattle.job.specs.JobPoses.{poses_check, job_poses};
ghost use Rattle.maztubel.specs.Lent as Lent;
ghost use Rattle.maztubel.specs.JobEntries as S;

use crate::lent::{hand_back, hand_place};
use chain::{Kinematics, demand};
use job::Job;
use refusal::{Cause, Refusal};

#[tactic(auto, using(crate::proofs::JobChains::chain_promised))]
pub fn maztubel_read_job(
    job: &[u8],
    chain_at: &mut u64,
    chain_length: &mut u64,
    poses_at: &mut u64,
    count: &mut u64,
    cone: &mut f64,
    chord: &mut f64,
    axis: &mut f64,
    at: &mut u64,
) -> u32
    ensures number { result ≡ Lent.number_in (read_job job.now) }
    ensures place { at.new ≡ Lent.place_in (read_job job.now) }
    ensures chain { chain_at.new ≡ S.chain_over (read_job job.now) chain_at.old }
    ensures length { chain_length.new ≡ S.length_over (read_job job.now) chain_length.old }
    ensures poses { poses_at.new ≡ S.poses_over (read_job job.now) poses_at.old }
    ensures count { count.new ≡ S.count_over (read_job job.now) count.old }
    ensures cone { cone.new ≡ S.cone_over (read_job job.now) cone.old }
    ensures chord { chord.new ≡ S.chord_over (read_job job.now) chord.old }
    ensures axis { axis.new ≡ S.axis_over (read_job job.now) axis.old }
    ensures promise { S.ChainPromise job.now (read_job job.now) }
{
    let read = job::read_job(job);
    put_job(
        read,
        chain_at,
        chain_length,
        poses_at,
        count,
        cone,
        chord,
        axis,
    );
    hand_place(&read, at)
}

pub fn maztubel_job_poses(job: &[u8], poses: &mut [f64], at: &mut u64) -> u32
    ensures number { result ≡ Lent.number_in (poses_check (read_job job.now) (length poses.old)) }
    ensures place { at.new ≡ Lent.place_in (poses_check (read_job job.now) (length poses.old)) }
    ensures lent { poses.new ≡ job_poses job.now poses.old }
{
    let checked = job::job_poses(job, poses);
    hand_place(&checked, at)
}

#[tactic(auto, using(crate::proofs::Cables::cable_promised))]
pub fn maztubel_cable_number(
    chain: &[u8],
    joints: &[f64],
    rotary: u64,
    number: &mut u64,
    at: &mut u64,
    letter: &mut u8,
) -> u32
    ensures number { result ≡ Lent.number_in (S.cable_of chain.now joints.now rotary) }
    ensures place { at.new ≡ Lent.place_in (S.cable_of chain.now joints.now rotary) }
    ensures named { letter.new ≡ Lent.letter_in (S.cable_of chain.now joints.now rotary) }
    ensures lent { number.new ≡ S.number_over (S.cable_of chain.now joints.now rotary) number.old }
    ensures largest { S.CablePromise (read_chain chain.now) joints.now rotary (S.cable_of chain.now joints.now rotary) }
{
    let cable = cable_of(chain, joints, rotary);
    put_cable(cable, number);
    hand_back(&cable, at, letter)
}

// Writes what a job says into all that is lent for it, where it is read.
// Beside `put_cable`, `put_asked` and `put_meeting`: each takes another answer apart into what C lends for it.
fn put_job(
    read: Result<Job, Refusal>,
    chain_at: &mut u64,
    chain_length: &mut u64,
    poses_at: &mut u64,
    count: &mut u64,
    cone: &mut f64,
    chord: &mut f64,
    axis: &mut f64,
)
    ensures chain { chain_at.new ≡ S.chain_over read chain_at.old }
    ensures length { chain_length.new ≡ S.length_over read chain_length.old }
    ensures poses { poses_at.new ≡ S.poses_over read poses_at.old }
    ensures count { count.new ≡ S.count_over read count.old }
    ensures cone { cone.new ≡ S.cone_over read cone.old }
    ensures chord { chord.new ≡ S.chord_over read chord.old }
    ensures axis { axis.new ≡ S.axis_over read axis.old }
{
    let Ok(j) = read else {
        return;
    };
    *chain_at = j.chain_at as u64;
    *chain_length = j.chain_length as u64;
    *poses_at = j.poses_at as u64;
    *count = j.poses as u64;
    *cone = j.cone;
    *chord = j.tol.chord;
    *axis = j.tol.axis;
}

// ---- the cable number
#[tactic(auto, unfolding(crate::specs::JobEntries::cable_of))]
fn cable_of(chain: &[u8], joints: &[f64], rotary: u64) -> Result<u64, Refusal>
    ensures { result ≡ S.cable_of chain.now joints.now rotary }
{
    demand(joints.len() % 5 == 0, Cause::LengthsDiffer, 0)?;
    let mut k = Kinematics::default();
    chain::read_chain_into(chain, &mut k)?;
    job::cable_number(&k, joints, rotary as usize)
}

// The three writers of answers, this one, `put_asked` and `put_meeting`, stay apart: each takes another answer apart
// into the numbers that C lends for it.
fn put_cable(cable: Result<u64, Refusal>, number: &mut u64)
    ensures { number.new ≡ S.number_over cable number.old }
{
    if let Ok(k) = cable {
        *number = k;
    }
}
