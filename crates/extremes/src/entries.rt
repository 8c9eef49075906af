// The three calls over lent numbers. Each answers every argument, and its contract says what is lent afterwards; a
// refusal changes nothing.
ghost use Rattle.std.specs.Prelude.{◌≡◌, length};
ghost use Rattle.extremes.specs.Checking as C;
ghost use Rattle.extremes.specs.Entries as S;

use crate::checking::{ask_check, build_check, replace_check};
use crate::summing::{sum_group, sum_groups};
use crate::{Question, Summed};
use refusal::Refusal;

// Writes the summary of the joints.
#[tactic(auto, unfolding(crate::specs::Entries::summary_built))]
pub fn build(joints: &[f64], summary: &mut [f64]) -> Result<(), Refusal>
    ensures checked { result ≡ C.build_check joints.now (length summary.old) }
    ensures summary { summary.new ≡ S.summary_built joints.now summary.old }
{
    build_check(joints, summary.len())?;
    sum_groups(joints, summary);
    Ok(())
}

// Replaces one joint set, and sums its group afresh.
#[tactic(auto, unfolding(crate::specs::Entries::joints_replaced, crate::specs::Entries::summary_replaced))]
pub fn replace(
    joints: &mut [f64],
    summary: &mut [f64],
    index: usize,
    fresh: &[f64],
) -> Result<(), Refusal>
    ensures checked { result ≡ C.replace_check (length joints.old) (length summary.old) index fresh.now }
    ensures joints { joints.new ≡ S.joints_replaced joints.old summary.old index fresh.now }
    ensures summary { summary.new ≡ S.summary_replaced joints.old summary.old index fresh.now }
    ensures own { S.StaysOwn joints.old summary.old joints.new summary.new }
{
    replace_check(joints.len(), summary.len(), index, fresh)?;
    let j = turn::joints_in(fresh, 0);
    path::put_joints(j, joints, index * 5);
    sum_group(joints, summary, index / 64);
    Ok(())
}

// The first joint set with an angle of a rotary above the given one. Groups whose largest is not above are not read.
pub fn ask(
    joints: &[f64],
    summary: &[f64],
    rotary: usize,
    angle: f64,
) -> Result<Option<usize>, Refusal>
    ensures answer { result ≡ S.ask_of joints.now summary.now rotary angle }
    ensures read { S.AsRead joints.now summary.now rotary angle result }
    ensures skipped { S.Skips joints.now summary.now rotary angle result }
{
    ask_check(joints.len(), summary.len(), rotary, angle)?;
    let path = Summed { joints, summary };
    Ok(Question { rotary, angle }.first_above(&path))
}
