// The entry that writes a job into lent bytes. A refusal keeps the bytes; the job's length, the place and the letter
// are written by every call.
ghost use Rattle.std.specs.Prelude.{◌≡◌, false};
ghost use Rattle.std.proofs.Math.ListN as ListN;
ghost use Rattle.chain.specs.ChainBytes.{read_chain};
ghost use Rattle.middle.specs.Testing.{tolerances};
ghost use Rattle.maztubel.specs.Lent as Lent;
ghost use Rattle.maztubel.specs.WriteEntries as S;

use crate::lent::hand_back;
use chain::{Kinematics, demand};
use middle::Tolerances;
use refusal::{Cause, Refusal};

pub fn maztubel_write_job(
    chain: &[u8],
    poses: &[f64],
    cone: f64,
    chord: f64,
    axis: f64,
    job: &mut [u8],
    length: &mut u64,
    at: &mut u64,
    letter: &mut u8,
) -> u32
    ensures number { result ≡ Lent.number_in (S.write_of chain.now poses.now cone (tolerances false chord axis) (ListN.length job.old)) }
    ensures length { length.new ≡ S.length_in (S.write_of chain.now poses.now cone (tolerances false chord axis) (ListN.length job.old)) }
    ensures place { at.new ≡ Lent.place_in (S.write_of chain.now poses.now cone (tolerances false chord axis) (ListN.length job.old)) }
    ensures named { letter.new ≡ Lent.letter_in (S.write_of chain.now poses.now cone (tolerances false chord axis) (ListN.length job.old)) }
    ensures lent { job.new ≡ S.job_left chain.now poses.now cone (tolerances false chord axis) job.old }
    ensures promise { S.WritePromise (read_chain chain.now) poses.now cone (tolerances false chord axis) (ListN.length job.old) }
{
    let tol = Tolerances {
        chord,
        axis,
        strict: false,
    };
    let written = write_of(chain, poses, cone, tol, job);
    *length = length_in(written);
    hand_back(&written, at, letter)
}

fn write_of(
    chain: &[u8],
    poses: &[f64],
    cone: f64,
    tol: Tolerances,
    job: &mut [u8],
) -> Result<usize, Refusal>
    ensures answer { result ≡ S.write_of chain.now poses.now cone tol (ListN.length job.old) }
    ensures lent { job.new ≡ S.job_left chain.now poses.now cone tol job.old }
    ensures promise { S.WritePromise (read_chain chain.now) poses.now cone tol (ListN.length job.old) }
{
    demand(poses.len() % 6 == 0, Cause::LengthsDiffer, 0)?;
    let mut k = Kinematics::default();
    chain::read_chain_into(chain, &mut k)?;
    writer::write_job(&k, poses, cone, tol, job)
}

fn length_in(written: Result<usize, Refusal>) -> u64
    ensures { result ≡ S.length_in written }
{
    written.map_or(0, |n| n as u64)
}
