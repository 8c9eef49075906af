// subdivide_path: the checks, then the division of given poses with their joint sets in two lent outputs. A refusal
// before the first test keeps both; 27 and 28 leave +0.0 in both.
ghost use Rattle.std.specs.Prelude.{ℕ, ◌*◌, ◌/◌, ◌≡◌, length};
ghost use Rattle.chain.specs.Prepared.{prepared};
ghost use Rattle.turn.specs.Items.{items_in, space_in};
ghost use Rattle.machine.specs.Dividing.{Over, divided_in, poses_over, joints_over};
ghost use Rattle.divide.specs.Subdividing as S;
ghost use Rattle.divide.specs.Looser.{Later};
ghost use Rattle.divide.specs.Price.{IfSolved};

use crate::DivisionError;
use crate::checking::division_check;
use chain::Kinematics;
use machine::{divide_given, divide_solved};
use middle::Tolerances;
use turn::{GivenPath, Outputs, Setting, Stop, space_in};

// Nothing is to be halved: there is no pose, or no space for those that are given.
#[tactic(auto, unfolding(crate::specs::Subdividing::idle))]
fn idle(space: usize, count: usize) -> bool
    ensures { result ≡ S.idle space count }
{
    count == 0 || space < count
}

#[tactic(auto, unfolding(crate::specs::Subdividing::idle_answer))]
fn idle_answer(space: usize, count: usize) -> Result<u64, Stop>
    ensures { result ≡ divided_in (S.idle_answer space count) }
{
    if count <= space {
        return Ok(0);
    }
    Err(Stop::NoSpace(0))
}

// Both outputs, where nothing is to be halved.
fn cleared(count: usize, out: &mut Outputs) -> Result<u64, Stop>
    ensures answer { result ≡ divided_in (S.idle_answer out.old.space count) }
    ensures lent { Over (S.idle_answer out.old.space count) out.old out.new }
{
    out.poses.fill(0.0);
    out.joints.fill(0.0);
    idle_answer(out.space, count)
}

// The given poses and joint sets are lent elsewhere. Its first lines are those of `halve_solved`: one function of both
// would take the last call as a closure, and its clauses, with what they ask of that, are longer than those lines.
fn halve_given(
    k: &Kinematics,
    tol: Tolerances,
    given: &GivenPath,
    poses: &mut [f64],
    joints: &mut [f64],
) -> Result<u64, Stop>
    ensures answer { result ≡ divided_in (S.division_within (prepared k.now) tol (space_in (length poses.old) (length joints.old)) (items_in given.now.count given.now.poses.now given.now.joints.now)) }
    ensures poses { poses.new ≡ poses_over (S.division_within (prepared k.now) tol (space_in (length poses.old) (length joints.old)) (items_in given.now.count given.now.poses.now given.now.joints.now)) poses.old }
    ensures joints { joints.new ≡ joints_over (S.division_within (prepared k.now) tol (space_in (length poses.old) (length joints.old)) (items_in given.now.count given.now.poses.now given.now.joints.now)) joints.old }
{
    let space = space_in(poses.len(), joints.len());
    let mut out = Outputs {
        space,
        poses,
        joints,
    };
    if idle(space, given.count) {
        return cleared(given.count, &mut out);
    }
    let p = chain::prepare(k);
    divide_given(&Setting { p, tol }, given, &mut out)
}

// The joint sets stand at the front of their output.
pub fn halve_solved(
    k: &Kinematics,
    tol: Tolerances,
    given: &[f64],
    poses: &mut [f64],
    joints: &mut [f64],
) -> Result<u64, Stop>
    requires { length given.now ≡ length given.now / 6 * 6 }
    ensures answer { result ≡ divided_in (S.division_within (prepared k.now) tol (space_in (length poses.old) (length joints.old)) (S.given given.now joints.old)) }
    ensures poses { poses.new ≡ poses_over (S.division_within (prepared k.now) tol (space_in (length poses.old) (length joints.old)) (S.given given.now joints.old)) poses.old }
    ensures joints { joints.new ≡ joints_over (S.division_within (prepared k.now) tol (space_in (length poses.old) (length joints.old)) (S.given given.now joints.old)) joints.old }
{
    let count = given.len() / 6;
    let space = space_in(poses.len(), joints.len());
    let mut out = Outputs {
        space,
        poses,
        joints,
    };
    if idle(space, count) {
        return cleared(count, &mut out);
    }
    let p = chain::prepare(k);
    divide_solved(&Setting { p, tol }, count, given, &mut out)
}

// The given poses with their joint sets, and poses between them until both tolerances hold.
pub fn subdivide_path(
    k: &Kinematics,
    tol: Tolerances,
    given: &[f64],
    solved: &[f64],
    poses: &mut [f64],
    joints: &mut [f64],
) -> Result<u64, DivisionError>
    ensures answer { result ≡ S.division_in (S.subdivide_path k.now tol given.now solved.now (length poses.old) (length joints.old)) }
    ensures poses { poses.new ≡ S.poses_left (S.subdivide_path k.now tol given.now solved.now (length poses.old) (length joints.old)) poses.old }
    ensures joints { joints.new ≡ S.joints_left (S.subdivide_path k.now tol given.now solved.now (length poses.old) (length joints.old)) joints.old }
    ensures price { IfSolved k.now tol given.now solved.now (length poses.old) (length joints.old) result poses.new joints.new }
    ensures later { Later k.now tol given.now solved.now (length poses.old) (length joints.old) result poses.new joints.new }
{
    chain::chain_fits(*k);
    division_check(k, tol, given, solved, poses.len(), joints.len())?;
    let path = GivenPath {
        count: given.len() / 6,
        poses: given,
        joints: solved,
    };
    Ok(halve_given(k, tol, &path, poses, joints)?)
}
