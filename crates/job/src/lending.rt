// The poses of a job, copied into lent numbers, six for each.
ghost use Rattle.std.specs.Prelude.{◌≡◌, ◌+◌, ◌*◌, ◌≤◌, length};
ghost use Rattle.job.specs.JobBytes.{read_job};
ghost use Rattle.job.specs.JobPoses as S;

use crate::Job;
use crate::job_bytes::read_job;
use chain::{demand, number_at};
use refusal::{Cause, Refusal};

// An output full of numbers, from an offset on. By index, as `probe_roots` of crate probe: under `zip` the loop's
// invariant cannot name the numbers that are written.
fn numbers_at(bytes: &[u8], at: usize, out: &mut [f64])
    requires { at + 8 * length out.old ≤ length bytes.now }
    ensures { out.new ≡ S.numbers_at (length out.old) bytes.now at }
{
    for (i, x) in out.iter_mut().enumerate() {
        *x = number_at(bytes, at + 8 * i);
    }
}

// All poses of a job that lies within the bytes, where there is room; the rest of the output is +0.0.
fn lend(bytes: &[u8], j: Job, out: &mut [f64]) -> Result<(), Refusal>
    requires { j.poses_at + 48 * j.poses ≤ length bytes.now }
    ensures checked { result ≡ S.room j (length out.old) }
    ensures lent { out.new ≡ S.lent_after (S.room j (length out.old)) (S.poses_of bytes.now j) out.old }
{
    let numbers = 6 * j.poses as usize;
    demand(numbers <= out.len(), Cause::NoSpace, 0)?;
    numbers_at(bytes, j.poses_at as usize, &mut out[..numbers]);
    path::clear_from(out, numbers);
    Ok(())
}

// The poses of a job, or its first refusal, which keeps the output.
pub fn job_poses(bytes: &[u8], out: &mut [f64]) -> Result<(), Refusal>
    ensures checked { result ≡ S.poses_check (read_job bytes.now) (length out.old) }
    ensures lent { out.new ≡ S.job_poses bytes.now out.old }
{
    demand(out.len() % 6 == 0, Cause::LengthsDiffer, 0)?;
    let j = read_job(bytes)?;
    lend(bytes, j, out)
}
