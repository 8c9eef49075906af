// One pair divided, as Subdiv::fill of the Rust does it: the poses that were inserted before count, and the two outputs
// hold this pair alone.
ghost use Rattle.std.specs.Prelude.{◌≤◌, ◌≡◌, Err, length, replicate};
ghost use Rattle.turn.specs.declared.Stop.{Stop};
ghost use Rattle.float.specs.Helpers.{nought};
ghost use Rattle.machine.specs.Dividing.{divided_in, poses_over, joints_over, Over};
ghost use Rattle.machine.specs.Filling as S;

use crate::Subdiv;
use crate::dividing::divide_after;
use chain::Prepared;
use middle::{Item, Tolerances};
use turn::{MOST, Outputs, Setting, Stop, space_in};

// Where the machine's count starts: it knows none past 10,000.
#[tactic(auto, unfolding(crate::specs::Filling::counted))]
fn counted(had: u64) -> u64
    ensures { result ≡ S.counted had }
{
    had.min(MOST)
}

// Past 10,000 nothing is inserted, and the count stays what it was.
#[tactic(auto, unfolding(crate::specs::Filling::recounted))]
fn recounted(had: u64, said: Result<u64, Stop>) -> Result<u64, Stop>
    ensures { result ≡ S.recounted had said }
{
    if had <= MOST {
        return said;
    }
    match said {
        Ok(_) => Ok(had),
        Err(Stop::TooMany(_)) => Err(Stop::TooMany(had)),
        Err(Stop::NoSpace(_)) => Err(Stop::NoSpace(had)),
    }
}

// No space for the pair itself.
fn without_space(had: u64, poses: &mut [f64], joints: &mut [f64]) -> Result<u64, Stop>
    ensures answer { result ≡ Err (Stop.NoSpace had) }
    ensures poses { poses.new ≡ replicate (length poses.old) nought }
    ensures joints { joints.new ≡ replicate (length joints.old) nought }
{
    poses.fill(0.0);
    joints.fill(0.0);
    Err(Stop::NoSpace(had))
}

// The pair divided in two outputs with space for it.
fn fill_space(
    by: &Setting,
    had: u64,
    left: Item,
    right: Item,
    out: &mut Outputs,
) -> Result<u64, Stop>
    requires { 2 ≤ out.old.space }
    ensures answer { result ≡ divided_in (S.pair_halved by.now.p by.now.tol out.old.space had left right) }
    ensures lent { Over (S.pair_halved by.now.p by.now.tol out.old.space had left right) out.old out.new }
{
    out.put(left, 0);
    out.put(right, 1);
    let said = divide_after(by, 2, counted(had), out);
    recounted(had, said)
}

// The pair divided, after `had` insertions elsewhere: where 10,000 or more were inserted before, a pair that needs no
// more is done, and any other is refused.
pub fn fill_pair(
    p: Prepared,
    had: u64,
    tol: Tolerances,
    left: Item,
    right: Item,
    poses: &mut [f64],
    joints: &mut [f64],
) -> Result<u64, Stop>
    ensures answer { result ≡ divided_in (S.filled p had tol left right poses.old joints.old) }
    ensures poses { poses.new ≡ poses_over (S.filled p had tol left right poses.old joints.old) poses.old }
    ensures joints { joints.new ≡ joints_over (S.filled p had tol left right poses.old joints.old) joints.old }
{
    let space = space_in(poses.len(), joints.len());
    if space < 2 {
        return without_space(had, poses, joints);
    }
    let by = Setting { p, tol };
    let mut out = Outputs {
        space,
        poses,
        joints,
    };
    fill_space(&by, had, left, right, &mut out)
}

fn count_in(said: Result<u64, Stop>) -> u64
    ensures { result ≡ S.count_in said }
{
    said.unwrap_or_else(Stop::inserted)
}

// The same over a lent record, which keeps the count, on refusals too.
pub fn fill(
    job: &mut Subdiv,
    p: Prepared,
    left: Item,
    right: Item,
    poses: &mut [f64],
    joints: &mut [f64],
) -> Result<u64, Stop>
    ensures answer { result ≡ divided_in (S.filling job.old p left right poses.old joints.old) }
    ensures job { job.new ≡ S.after job.old (S.filling job.old p left right poses.old joints.old) }
    ensures poses { poses.new ≡ poses_over (S.filling job.old p left right poses.old joints.old) poses.old }
    ensures joints { joints.new ≡ joints_over (S.filling job.old p left right poses.old joints.old) joints.old }
{
    let said = fill_pair(p, job.inserted, job.tol, left, right, poses, joints);
    job.inserted = count_in(said);
    said
}
