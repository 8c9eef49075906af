// A path over lent numbers: six for a pose, five for a joint set. What is refused before the first pose keeps all that
// is lent; what is refused at a pose leaves +0.0 in the whole output.
ghost use Rattle.std.specs.Prelude.{◌+◌, ◌*◌, ◌/◌, ◌≤◌, ◌≡◌, true, length, take};
ghost use Rattle.float.specs.Helpers.{nought};
ghost use Rattle.lists.specs.Padding.{padded};
ghost use Rattle.chain.specs.Prepared.{prepared};
ghost use Rattle.path.specs.Closest.{bounded};
ghost use Rattle.path.specs.Solving as S;
ghost use Rattle.path.specs.Promise.{OnPath, Served};

use crate::CheckedSetup;
use crate::posing::{pose_answer_of, set_up};
use chain::{Joints, Kinematics, ToolPose, demand};
use geometry::Vec3;
use inverse::Angles;
use refusal::{Cause, Refusal};

// The pose whose six numbers begin there. By a slice and a place: who calls has flat numbers and a place, or one
// record, which is a slice at 0. A second function of `&[f64; 6]` would be the same lines again.
#[tactic(auto, unfolding(crate::specs::Solving::pose_in))]
pub fn pose_in(poses: &[f64], at: usize) -> ToolPose
    requires { at + 6 ≤ length poses.now }
    ensures { result ≡ S.pose_in poses.now at }
{
    let tip = Vec3 {
        x: poses[at],
        y: poses[at + 1],
        z: poses[at + 2],
    };
    let axis = Vec3 {
        x: poses[at + 3],
        y: poses[at + 4],
        z: poses[at + 5],
    };
    ToolPose { tip, axis }
}

// Writes the five numbers of a joint set.
pub fn put_joints(j: Joints, out: &mut [f64], at: usize)
    requires { at + 5 ≤ length out.old }
    ensures { out.new ≡ S.joints_over j out.old at }
{
    out[at..at + 5].copy_from_slice(&[j.xyz.x, j.xyz.y, j.xyz.z, j.a0, j.a1]);
}

// +0.0 from an index on.
pub fn clear_from(out: &mut [f64], from: usize)
    requires { from ≤ length out.old }
    ensures { out.new ≡ padded (length out.old) nought (take from out.old) }
{
    out[from..].fill(0.0);
}

// Two rotaries whose unit axes have a cross product shorter than 1e-9. Such a chain can have endless solutions, and
// which one a path takes would depend on its start.
#[tactic(auto, unfolding(crate::specs::Solving::parallel, chain::specs::Prepared::unit_axis))]
fn parallel(k: &Kinematics) -> bool
    ensures { result ≡ S.parallel k.now }
{
    let Some(second) = k.second_rotary() else {
        return false;
    };
    let outer = geometry::unit_or(k.first.axis, k.first.axis);
    let inner = geometry::unit_or(second.axis, second.axis);
    inverse::parallel_axes(outer, inner)
}

// The chain check of every call that walks a path: `inverse` and `choose` serve parallel rotaries, a path does not.
#[tactic(auto, unfolding(crate::specs::Solving::path_chain))]
pub fn path_chain(k: &Kinematics) -> Result<(), Refusal>
    ensures { result ≡ S.path_chain k.now }
{
    chain::chain_check(k)?;
    demand(!parallel(k), Cause::ParallelRotaries, 0)
}

// Above 0 and at most 10 degrees.
#[tactic(auto, unfolding(crate::specs::Solving::cone_good))]
pub fn cone_good(cone: f64) -> bool
    ensures { result ≡ S.cone_good cone }
{
    float::finite(cone) && 0.0 < cone && cone <= 10.0
}

// In closures, here and below. Tried by the name, `is_none_or(chain::joints_finite)`: the proof has no contract for a
// function that lies in a private module of another crate.
fn start_finite(start: Option<Joints>) -> bool
    ensures { result ≡ S.start_finite start }
{
    start.is_none_or(|j| chain::joints_finite(j))
}

fn start_within(start: Option<Joints>) -> bool
    ensures { result ≡ S.start_within start }
{
    start.is_none_or(|j| chain::joints_within(j))
}

fn start_angles(start: Option<Joints>) -> Angles
    ensures { result ≡ S.start_angles start }
{
    start.map_or(Angles::default(), Angles::from)
}

#[tactic(auto, unfolding(crate::specs::Solving::whole_records))]
pub fn whole_records(numbers: usize, room: usize) -> bool
    ensures { result ≡ S.whole_records numbers room }
{
    numbers % 6 == 0 && room % 5 == 0
}

#[tactic(auto, unfolding(crate::specs::Solving::path_sizes))]
fn path_sizes(k: &Kinematics, start: Option<Joints>, count: usize) -> bool
    ensures { result ≡ S.path_sizes k.now start count }
{
    chain::chain_within(k) && start_within(start) && count <= 100000
}

// The chain, the start and the cone are three parameters, as C hands them to `solve_path`: divide asks this too, and
// `solve_check(Asked { k, start, cone }, numbers, room)` would be written out at both.
#[tactic(auto, unfolding(crate::specs::Solving::solve_check))]
pub fn solve_check(
    k: &Kinematics,
    start: Option<Joints>,
    cone: f64,
    numbers: usize,
    room: usize,
) -> Result<(), Refusal>
    ensures { result ≡ S.solve_check k.now start cone numbers room }
{
    demand(whole_records(numbers, room), Cause::LengthsDiffer, 0)?;
    demand(cone_good(cone), Cause::Cone, 0)?;
    path_chain(k)?;
    demand(start_finite(start), Cause::NotFinite, 0)?;
    demand(path_sizes(k, start, numbers / 6), Cause::TooLarge, 0)?;
    demand(numbers / 6 <= room / 5, Cause::NoSpace, 0)
}

// Each pose in turn, by its index, of which the place in `out` is made: of what was written through `as_chunks_mut` a
// proof knows the length and not the numbers.
fn solve_poses(
    s: &CheckedSetup,
    start: Angles,
    poses: &[f64],
    out: &mut [f64],
) -> Result<(), Refusal>
    requires { length poses.now / 6 * 5 ≤ length out.old }
    ensures checked { result ≡ S.checked_in (S.solve_poses s.now.setup start 0 (S.poses_in poses.now)) }
    ensures lent { out.new ≡ S.path_over (S.solve_poses s.now.setup start 0 (S.poses_in poses.now)) out.old }
{
    let n = poses.len() / 6;
    let mut previous = start;
    for i in 0..n {
        let pose = pose_in(poses, i * 6);
        let j = match pose_answer_of(s, pose, previous, i as u64) {
            Ok(j) => j,
            Err(r) => {
                out.fill(0.0);
                return Err(r);
            }
        };
        put_joints(j, out, i * 5);
        previous = Angles::from(j);
    }
    clear_from(out, n * 5);
    Ok(())
}

// Of a chain, a start and a cone that are checked, with space for every pose.
pub fn solve_checked(
    k: &Kinematics,
    poses: &[f64],
    start: Option<Joints>,
    cone: f64,
    out: &mut [f64],
) -> Result<(), Refusal>
    requires { (length poses.now / 6 * 5 ≤ length out.old) × (bounded (prepared k.now) ≡ true) }
    ensures checked { result ≡ S.checked_in (S.solve_checked k.now poses.now start cone) }
    ensures lent { out.new ≡ S.path_over (S.solve_checked k.now poses.now start cone) out.old }
{
    chain::chain_fits(*k);
    let s = CheckedSetup {
        setup: set_up(k, cone),
    };
    solve_poses(&s, start_angles(start), poses, out)
}

// The joints of every pose, or the first refusal.
#[tactic(auto, unfolding(crate::specs::Solving::solve_path, crate::specs::Solving::path_over))]
pub fn solve_path(
    k: &Kinematics,
    poses: &[f64],
    start: Option<Joints>,
    cone: f64,
    out: &mut [f64],
) -> Result<(), Refusal>
    ensures checked { result ≡ S.checked_in (S.solve_path k.now poses.now start cone (length out.old)) }
    ensures lent { out.new ≡ S.path_over (S.solve_path k.now poses.now start cone (length out.old)) out.old }
    ensures served { OnPath (Served k.now) (S.solve_path k.now poses.now start cone (length out.old)) }
{
    chain::chain_fits(*k);
    solve_check(k, start, cone, poses.len(), out.len())?;
    solve_checked(k, poses, start, cone, out)
}
