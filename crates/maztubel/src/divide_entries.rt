// The entries that divide: given poses with their joints, by the Rust's test or by the strict one, or poses alone,
// which are solved first. What the first two refuse before their first test keeps both outputs, and so does what the
// third refuses before its first pose; every other refusal leaves +0.0 in both.
ghost use Rattle.std.specs.Prelude.{◌≡◌, true, false, length};
ghost use Rattle.chain.specs.ChainBytes.{read_chain};
ghost use Rattle.middle.specs.Testing.{tolerances};
ghost use Rattle.divide.specs.Subdividing.{division_in, poses_left, joints_left};
ghost use Rattle.maztubel.specs.Lent as Lent;
ghost use Rattle.maztubel.specs.PathEntries.{start_in};
ghost use Rattle.maztubel.specs.DivideEntries as S;

use crate::lent::hand_back;
use crate::path_entries::{start_good, start_in};
use chain::{Kinematics, demand};
use divide::DivisionError;
use middle::Tolerances;
use refusal::{Cause, Refusal};

#[tactic(auto, using(crate::proofs::Causes::subdivide_says))]
pub fn maztubel_subdivide_path(
    chain: &[u8],
    poses: &[f64],
    joints: &[f64],
    chord: f64,
    axis: f64,
    out_poses: &mut [f64],
    out_joints: &mut [f64],
    inserted: &mut u64,
    at: &mut u64,
    letter: &mut u8,
) -> u32
    ensures number { result ≡ S.division_number (division_in (S.subdivide_of chain.now (tolerances false chord axis) poses.now joints.now (length out_poses.old) (length out_joints.old))) }
    ensures count { inserted.new ≡ S.inserted_in (division_in (S.subdivide_of chain.now (tolerances false chord axis) poses.now joints.now (length out_poses.old) (length out_joints.old))) }
    ensures place { at.new ≡ S.division_place (division_in (S.subdivide_of chain.now (tolerances false chord axis) poses.now joints.now (length out_poses.old) (length out_joints.old))) }
    ensures named { letter.new ≡ S.division_letter (division_in (S.subdivide_of chain.now (tolerances false chord axis) poses.now joints.now (length out_poses.old) (length out_joints.old))) }
    ensures poses { out_poses.new ≡ poses_left (S.subdivide_of chain.now (tolerances false chord axis) poses.now joints.now (length out_poses.old) (length out_joints.old)) out_poses.old }
    ensures joints { out_joints.new ≡ joints_left (S.subdivide_of chain.now (tolerances false chord axis) poses.now joints.now (length out_poses.old) (length out_joints.old)) out_joints.old }
    ensures price { S.SubdividePromise (read_chain chain.now) (tolerances false chord axis) poses.now joints.now (length out_poses.old) (length out_joints.old) (division_in (S.subdivide_of chain.now (tolerances false chord axis) poses.now joints.now (length out_poses.old) (length out_joints.old))) out_poses.new out_joints.new }
    ensures says { S.Says result (division_in (S.subdivide_of chain.now (tolerances false chord axis) poses.now joints.now (length out_poses.old) (length out_joints.old))) }
{
    let tol = Tolerances {
        chord,
        axis,
        strict: false,
    };
    let said = subdivide_of(chain, tol, poses, joints, out_poses, out_joints);
    hand_over(said, inserted, at, letter)
}

// The same with the strict test: both quarters are held to the tolerances too.
#[tactic(auto, using(crate::proofs::Causes::subdivide_says))]
pub fn maztubel_subdivide_strict(
    chain: &[u8],
    poses: &[f64],
    joints: &[f64],
    chord: f64,
    axis: f64,
    out_poses: &mut [f64],
    out_joints: &mut [f64],
    inserted: &mut u64,
    at: &mut u64,
    letter: &mut u8,
) -> u32
    ensures number { result ≡ S.division_number (division_in (S.subdivide_of chain.now (tolerances true chord axis) poses.now joints.now (length out_poses.old) (length out_joints.old))) }
    ensures count { inserted.new ≡ S.inserted_in (division_in (S.subdivide_of chain.now (tolerances true chord axis) poses.now joints.now (length out_poses.old) (length out_joints.old))) }
    ensures place { at.new ≡ S.division_place (division_in (S.subdivide_of chain.now (tolerances true chord axis) poses.now joints.now (length out_poses.old) (length out_joints.old))) }
    ensures named { letter.new ≡ S.division_letter (division_in (S.subdivide_of chain.now (tolerances true chord axis) poses.now joints.now (length out_poses.old) (length out_joints.old))) }
    ensures poses { out_poses.new ≡ poses_left (S.subdivide_of chain.now (tolerances true chord axis) poses.now joints.now (length out_poses.old) (length out_joints.old)) out_poses.old }
    ensures joints { out_joints.new ≡ joints_left (S.subdivide_of chain.now (tolerances true chord axis) poses.now joints.now (length out_poses.old) (length out_joints.old)) out_joints.old }
    ensures price { S.SubdividePromise (read_chain chain.now) (tolerances true chord axis) poses.now joints.now (length out_poses.old) (length out_joints.old) (division_in (S.subdivide_of chain.now (tolerances true chord axis) poses.now joints.now (length out_poses.old) (length out_joints.old))) out_poses.new out_joints.new }
    ensures says { S.Says result (division_in (S.subdivide_of chain.now (tolerances true chord axis) poses.now joints.now (length out_poses.old) (length out_joints.old))) }
{
    let tol = Tolerances {
        chord,
        axis,
        strict: true,
    };
    let said = subdivide_of(chain, tol, poses, joints, out_poses, out_joints);
    hand_over(said, inserted, at, letter)
}

#[tactic(auto, using(crate::proofs::Causes::both_says))]
pub fn maztubel_solve_and_divide(
    chain: &[u8],
    poses: &[f64],
    start: &[f64],
    cone: f64,
    chord: f64,
    axis: f64,
    out_poses: &mut [f64],
    out_joints: &mut [f64],
    inserted: &mut u64,
    at: &mut u64,
    letter: &mut u8,
) -> u32
    ensures number { result ≡ S.division_number (division_in (S.both_of chain.now poses.now start.now cone (tolerances false chord axis) (length out_poses.old) (length out_joints.old))) }
    ensures count { inserted.new ≡ S.inserted_in (division_in (S.both_of chain.now poses.now start.now cone (tolerances false chord axis) (length out_poses.old) (length out_joints.old))) }
    ensures place { at.new ≡ S.division_place (division_in (S.both_of chain.now poses.now start.now cone (tolerances false chord axis) (length out_poses.old) (length out_joints.old))) }
    ensures named { letter.new ≡ S.division_letter (division_in (S.both_of chain.now poses.now start.now cone (tolerances false chord axis) (length out_poses.old) (length out_joints.old))) }
    ensures poses { out_poses.new ≡ poses_left (S.both_of chain.now poses.now start.now cone (tolerances false chord axis) (length out_poses.old) (length out_joints.old)) out_poses.old }
    ensures joints { out_joints.new ≡ joints_left (S.both_of chain.now poses.now start.now cone (tolerances false chord axis) (length out_poses.old) (length out_joints.old)) out_joints.old }
    ensures price { S.BothPromise (S.both_lengths (length poses.now) (length start.now) (length out_poses.old) (length out_joints.old)) (read_chain chain.now) poses.now (start_in start.now) cone (tolerances false chord axis) (division_in (S.both_of chain.now poses.now start.now cone (tolerances false chord axis) (length out_poses.old) (length out_joints.old))) out_poses.old out_joints.old out_poses.new out_joints.new }
    ensures says { S.Says result (division_in (S.both_of chain.now poses.now start.now cone (tolerances false chord axis) (length out_poses.old) (length out_joints.old))) }
{
    let tol = Tolerances {
        chord,
        axis,
        strict: false,
    };
    let said = both_of(chain, poses, start, cone, tol, out_poses, out_joints);
    hand_over(said, inserted, at, letter)
}

// The number, and the count, place and letter written.
pub fn hand_over(
    said: Result<u64, DivisionError>,
    inserted: &mut u64,
    at: &mut u64,
    letter: &mut u8,
) -> u32
    ensures number { result ≡ S.division_number said }
    ensures count { inserted.new ≡ S.inserted_in said }
    ensures place { at.new ≡ S.division_place said }
    ensures named { letter.new ≡ S.division_letter said }
{
    *inserted = inserted_in(said);
    hand_back(&refusal_in(said), at, letter)
}

fn inserted_in(said: Result<u64, DivisionError>) -> u64
    ensures { result ≡ S.inserted_in said }
{
    match said {
        Ok(n) => n,
        Err(DivisionError::Refused(_) | DivisionError::AtPose(_)) => 0,
        Err(DivisionError::Stopped(stop)) => stop.inserted(),
    }
}

fn refusal_in(said: Result<u64, DivisionError>) -> Result<(), Refusal>
    ensures number { Lent.number_in result ≡ S.division_number said }
    ensures place { Lent.place_in result ≡ S.division_place said }
    ensures named { Lent.letter_in result ≡ S.division_letter said }
{
    said?;
    Ok(())
}

pub fn subdivide_of(
    chain: &[u8],
    tol: Tolerances,
    poses: &[f64],
    joints: &[f64],
    out_poses: &mut [f64],
    out_joints: &mut [f64],
) -> Result<u64, DivisionError>
    ensures answer { result ≡ division_in (S.subdivide_of chain.now tol poses.now joints.now (length out_poses.old) (length out_joints.old)) }
    ensures poses { out_poses.new ≡ poses_left (S.subdivide_of chain.now tol poses.now joints.now (length out_poses.old) (length out_joints.old)) out_poses.old }
    ensures joints { out_joints.new ≡ joints_left (S.subdivide_of chain.now tol poses.now joints.now (length out_poses.old) (length out_joints.old)) out_joints.old }
    ensures price { S.SubdividePromise (read_chain chain.now) tol poses.now joints.now (length out_poses.old) (length out_joints.old) (division_in (S.subdivide_of chain.now tol poses.now joints.now (length out_poses.old) (length out_joints.old))) out_poses.new out_joints.new }
{
    let whole = divide::four_whole(poses.len(), joints.len(), out_poses.len(), out_joints.len());
    demand(whole, Cause::LengthsDiffer, 0)?;
    let mut k = Kinematics::default();
    chain::read_chain_into(chain, &mut k)?;
    divide::subdivide_path(&k, tol, poses, joints, out_poses, out_joints)
}

// The records are whole, and the start is five numbers or none. The two rooms by themselves, as C lends the outputs: a
// struct of both would be made for this test alone.
#[tactic(auto, unfolding(crate::specs::DivideEntries::both_lengths))]
fn both_lengths(poses: usize, start: usize, room_poses: usize, room_joints: usize) -> bool
    ensures { result ≡ S.both_lengths poses start room_poses room_joints }
{
    divide::three_whole(poses, room_poses, room_joints) && start_good(start)
}

fn both_of(
    chain: &[u8],
    poses: &[f64],
    start: &[f64],
    cone: f64,
    tol: Tolerances,
    out_poses: &mut [f64],
    out_joints: &mut [f64],
) -> Result<u64, DivisionError>
    ensures answer { result ≡ division_in (S.both_of chain.now poses.now start.now cone tol (length out_poses.old) (length out_joints.old)) }
    ensures poses { out_poses.new ≡ poses_left (S.both_of chain.now poses.now start.now cone tol (length out_poses.old) (length out_joints.old)) out_poses.old }
    ensures joints { out_joints.new ≡ joints_left (S.both_of chain.now poses.now start.now cone tol (length out_poses.old) (length out_joints.old)) out_joints.old }
    ensures price { S.BothPromise (S.both_lengths (length poses.now) (length start.now) (length out_poses.old) (length out_joints.old)) (read_chain chain.now) poses.now (start_in start.now) cone tol (division_in (S.both_of chain.now poses.now start.now cone tol (length out_poses.old) (length out_joints.old))) out_poses.old out_joints.old out_poses.new out_joints.new }
{
    let whole = both_lengths(poses.len(), start.len(), out_poses.len(), out_joints.len());
    demand(whole, Cause::LengthsDiffer, 0)?;
    let mut k = Kinematics::default();
    chain::read_chain_into(chain, &mut k)?;
    divide::solve_and_divide(&k, poses, start_in(start), cone, tol, out_poses, out_joints)
}
