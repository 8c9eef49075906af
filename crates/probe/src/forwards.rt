// The inner form of forward, for the benchmark: the chain is prepared once, then every record of five joints is taken
// through it, and all the numbers of the poses are added up.
ghost use Rattle.std.specs.Prelude.{◌/◌, ◌≡◌, length};
ghost use Rattle.std.specs.List.{fold};
ghost use Rattle.std.specs.Simd.{first_chunks};
ghost use Rattle.float.specs.Helpers.{nought};
ghost use Rattle.geometry.specs.Vector.{plus};
ghost use Rattle.chain.specs.ChainBytes.{read_chain};
ghost use Rattle.probe.specs.Forwards as S;

use chain::{Joints, Prepared, ToolPose};
use geometry::Vec3;

// 0.0 where the chain's bytes are refused.
#[unsafe(no_mangle)]
pub extern "C" fn probe_forwards(chain: &[u8], joints: &[f64], tool_length: f64) -> f64
    ensures { result ≡ S.sums_read (read_chain chain.now) joints.now tool_length }
{
    let Ok(k) = chain::read_chain(chain) else {
        return 0.0;
    };
    sums(chain::prepare(&k), joints, tool_length)
}

// Over chunks, of which `sums_fold` says that they are the records.
fn sums(p: Prepared, joints: &[f64], tool_length: f64) -> f64
    ensures { result ≡ fold (λ s c. plus s (S.sum_at p c tool_length 0)) nought (first_chunks 5 (length joints.now / 5) joints.now) }
{
    let (sets, _) = joints.as_chunks::<5>();
    sets.iter()
        .fold(0.0, |sum, set| sum + sum_of(p, set, tool_length))
}

// By hand: turn's `joints_in` would bring six crates more into an archive that ends with chain (turn and what it is
// built on: path, inverse, halving, middle, arrayvec).
#[tactic(auto, unfolding(crate::specs::Forwards::sum_at))]
fn sum_of(p: Prepared, set: &[f64; 5], tool_length: f64) -> f64
    ensures { result ≡ S.sum_at p set.now tool_length 0 }
{
    let [x, y, z, a0, a1] = *set;
    let xyz = Vec3 { x, y, z };
    let joints = Joints { xyz, a0, a1 };
    pose_sum(chain::pose_at(p, joints, tool_length))
}

#[tactic(auto, unfolding(crate::specs::Forwards::pose_sum))]
fn pose_sum(pose: ToolPose) -> f64
    ensures { result ≡ S.pose_sum pose }
{
    vector_sum(pose.tip) + vector_sum(pose.axis)
}

#[tactic(auto, unfolding(crate::specs::Forwards::vector_sum))]
fn vector_sum(v: Vec3) -> f64
    ensures { result ≡ S.vector_sum v }
{
    v.x + v.y + v.z
}
