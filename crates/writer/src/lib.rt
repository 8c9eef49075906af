// A job written into lent bytes: chain, poses and trailer at their front, with nothing between them. The reader is
// crate job.
#![tactic(auto)]

ghost use Rattle.std.specs.Prelude.{◌≡◌, length};
ghost use Rattle.writer.specs.Checking as S;

mod checking;
mod resting;
mod writing;

use chain::Kinematics;
use checking::write_check;
use middle::Tolerances;
use refusal::Refusal;
use writing::put_job;

// A refusal keeps the lent bytes, and those behind a job stay. What the reader gets from the job is what was given, and
// is written again to the same bytes. No struct of chain, poses, cone and tolerances: it would be made here for two
// calls, and each clause and definition would take it apart again.
pub fn write_job(
    k: &Kinematics,
    poses: &[f64],
    cone: f64,
    tol: Tolerances,
    out: &mut [u8],
) -> Result<usize, Refusal>
    ensures answer { result ≡ S.written_answer k.now poses.now cone tol (length out.old) }
    ensures lent { out.new ≡ S.written_job k.now poses.now cone tol out.old }
    ensures read { S.ReadBack k.now poses.now cone tol (length out.old) }
    ensures again { S.Rewritten k.now poses.now cone tol (length out.old) }
{
    chain::chain_fits(*k);
    write_check(k, poses, cone, tol, out.len())?;
    Ok(put_job(k, poses, cone, tol, out))
}
