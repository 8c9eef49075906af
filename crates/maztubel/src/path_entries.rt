// The entry of a path: joints for every pose, in a lent output. What is refused before the first pose keeps it, a
// refusal at a pose clears it.
ghost use Rattle.std.specs.Prelude.{◌≡◌, length};
ghost use Rattle.chain.specs.ChainBytes.{read_chain};
ghost use Rattle.path.specs.Solving as Path;
ghost use Rattle.maztubel.specs.Lent as Lent;
ghost use Rattle.maztubel.specs.PathEntries as S;

use crate::lent::hand_back;
use chain::{Joints, Kinematics, demand};
use refusal::{Cause, Refusal};

#[tactic(auto, using(crate::proofs::Promised::promised))]
pub fn maztubel_solve_path(
    chain: &[u8],
    poses: &[f64],
    start: &[f64],
    cone: f64,
    joints: &mut [f64],
    at: &mut u64,
    letter: &mut u8,
) -> u32
    ensures number { result ≡ Lent.number_in (Path.checked_in (S.solve_path_of chain.now poses.now start.now cone (length joints.old))) }
    ensures place { at.new ≡ Lent.place_in (Path.checked_in (S.solve_path_of chain.now poses.now start.now cone (length joints.old))) }
    ensures named { letter.new ≡ Lent.letter_in (Path.checked_in (S.solve_path_of chain.now poses.now start.now cone (length joints.old))) }
    ensures lent { joints.new ≡ Path.path_over (S.solve_path_of chain.now poses.now start.now cone (length joints.old)) joints.old }
    ensures served { S.Promised (read_chain chain.now) (S.solve_path_of chain.now poses.now start.now cone (length joints.old)) }
{
    let checked = solve_path_of(chain, poses, start, cone, joints);
    hand_back(&checked, at, letter)
}

#[tactic(auto, unfolding(crate::specs::PathEntries::start_good))]
pub fn start_good(numbers: usize) -> bool
    ensures { result ≡ S.start_good numbers }
{
    matches!(numbers, 0 | 5)
}

// The records are whole, and the start is five numbers or none.
#[tactic(auto, unfolding(crate::specs::PathEntries::lengths_good))]
fn lengths_good(poses: usize, joints: usize, start: usize) -> bool
    ensures { result ≡ S.lengths_good poses joints start }
{
    path::whole_records(poses, joints) && start_good(start)
}

#[tactic(auto, unfolding(crate::specs::PathEntries::start_in, crate::specs::Lent::joints_in, turn::specs::Items::joints_in))]
pub fn start_in(start: &[f64]) -> Option<Joints>
    ensures { result ≡ S.start_in start.now }
{
    (start.len() == 5).then(|| turn::joints_in(start, 0))
}

#[tactic(auto, unfolding(crate::specs::PathEntries::solve_path_of, path::specs::Solving::path_over))]
fn solve_path_of(
    chain: &[u8],
    poses: &[f64],
    start: &[f64],
    cone: f64,
    joints: &mut [f64],
) -> Result<(), Refusal>
    ensures checked { result ≡ Path.checked_in (S.solve_path_of chain.now poses.now start.now cone (length joints.old)) }
    ensures lent { joints.new ≡ Path.path_over (S.solve_path_of chain.now poses.now start.now cone (length joints.old)) joints.old }
{
    demand(
        lengths_good(poses.len(), joints.len(), start.len()),
        Cause::LengthsDiffer,
        0,
    )?;
    let mut k = Kinematics::default();
    chain::read_chain_into(chain, &mut k)?;
    path::solve_path(&k, poses, start_in(start), cone, joints)
}
