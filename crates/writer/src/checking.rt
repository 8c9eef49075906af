// The writer's checks, in their order.
ghost use Rattle.std.specs.Prelude.{◌*◌, ◌≤◌, ◌≡◌, leb, length};
ghost use Rattle.divide.specs.Checking.{FitUpTo};
ghost use Rattle.job.specs.JobBytes.{bytes_in};
ghost use Rattle.writer.specs.Checking as S;

use crate::resting::kind_of;
use chain::{Kinematics, demand};
use job::RecordKind;
use middle::Tolerances;
use refusal::{Cause, Refusal};

// Whether a job with such records has at most so many bytes.
#[tactic(auto, using(job::proofs::RecordLengths::chain_most), unfolding(crate::specs::Checking::job_length))]
fn job_within(kind: RecordKind, count: u8, numbers: usize, most: usize) -> bool
    requires { 8 * numbers ≤ 9223372036854775807 }
    ensures { result ≡ leb (S.job_length (bytes_in kind) count numbers) most }
{
    kind.chain_length(count) + 8 * numbers + 40 <= most
}

#[tactic(auto, unfolding(crate::specs::Checking::write_sizes))]
fn write_sizes(k: &Kinematics, poses: &[f64]) -> bool
    ensures { result ≡ S.write_sizes k.now poses.now }
{
    chain::chain_within(k)
        && divide::tips_within(poses)
        && job_within(kind_of(k), k.count, poses.len(), 65536)
}

// `room` is how many bytes are lent. Numbers that passed are floats of 64 bits.
#[tactic(auto, unfolding(crate::specs::Checking::write_check, crate::specs::Checking::in_order))]
pub fn write_check(
    k: &Kinematics,
    poses: &[f64],
    cone: f64,
    tol: Tolerances,
    room: usize,
) -> Result<(), Refusal>
    ensures checked { result ≡ S.write_check k.now poses.now cone tol room }
    ensures fit { result ≡ Ok tt → FitUpTo (length poses.now) poses.now }
{
    let whole = poses.len() % 6 == 0;
    // Before its place in the list: there, each round of the search made the refusal ready too, and a job of 1,360
    // poses took 186,000 instructions and not 170,000, up to 0.31 ns a byte and not 0.21.
    let finite = divide::numbers_finite(poses);
    demand(whole, Cause::LengthsDiffer, 0)?;
    chain::chain_check(k)?;
    demand(path::cone_good(cone), Cause::Cone, 0)?;
    demand(divide::tolerance_good(tol.chord), Cause::Tolerance, 0)?;
    demand(divide::tolerance_good(tol.axis), Cause::Tolerance, 0)?;
    demand(finite, Cause::NotFinite, 0)?;
    demand(write_sizes(k, poses), Cause::TooLarge, 0)?;
    let space = job_within(kind_of(k), k.count, poses.len(), room);
    demand(space, Cause::NoSpace, 0)
}
