// The quotation of given poses with their joint sets.
ghost use Rattle.std.specs.Prelude.{◌≤◌, ◌≡◌, length};
ghost use Rattle.chain.specs.Prepared.{prepared};
ghost use Rattle.divide.specs.Subdividing.{given};
ghost use Rattle.quote.specs.Quotation as S;
ghost use Rattle.quote.specs.AsDivided.{AsDivided};

use crate::checking::quote_check;
use crate::stepping::{NUMBERS, QuotedPath, TIPS};
use crate::{Figures, QuoteError};
use chain::Kinematics;
use middle::Tolerances;
use turn::{GivenPath, Stop};

// A path that the checks let pass.
#[derive(Clone, Copy)]
struct CheckedPath<'k, 'a> {
    k: &'k Kinematics,
    tol: Tolerances,
    given: GivenPath<'a>,
    ghost few: { given.count ≤ 100000 },
}

impl CheckedPath<'_, '_> {
    // What both scratches hold afterwards is not said.
    fn quotation(
        &self,
        stack: &mut [f64; NUMBERS],
        tips: &mut [f64; TIPS],
    ) -> Result<Figures, QuoteError>
        ensures { let g = self.now.given in result ≡ S.quotation (prepared self.now.k.now) self.now.tol (given g.poses.now g.joints.now) }
    {
        if self.given.count == 0 {
            return Ok(Figures::default());
        }
        let p = chain::prepare(self.k);
        let quoted = QuotedPath {
            p,
            tol: self.tol,
            given: self.given,
        };
        quoted.figures(stack, tips)
    }

    // Where there is scratch for all that may wait.
    fn within(&self, stack: &mut [f64], tips: &mut [f64]) -> Result<Figures, QuoteError>
        ensures { let g = self.now.given in result ≡ S.quote_checked self.now.k.now self.now.tol g.poses.now g.joints.now (length stack.old) (length tips.old) }
    {
        let waiting = stack.first_chunk_mut().ok_or(Stop::NoSpace(0))?;
        let poses = tips.first_chunk_mut().ok_or(Stop::NoSpace(0))?;
        self.quotation(waiting, poses)
    }

    // With both scratches cleared, whatever it comes to.
    fn cleared(
        &self,
        scratch_joints: &mut [f64],
        scratch_tips: &mut [f64],
    ) -> Result<Figures, QuoteError>
        ensures answer { let g = self.now.given in result ≡ S.quote_checked self.now.k.now self.now.tol g.poses.now g.joints.now (length scratch_joints.old) (length scratch_tips.old) }
        ensures joints { scratch_joints.new ≡ S.cleared scratch_joints.old }
        ensures tips { scratch_tips.new ≡ S.cleared scratch_tips.old }
    {
        let answer = self.within(scratch_joints, scratch_tips);
        scratch_joints.fill(0.0);
        scratch_tips.fill(0.0);
        answer
    }
}

// The figures of a division, or its refusal. Scratch for 10,000 joint sets and tips is lent: the checks' refusals keep
// it, and every other answer leaves +0.0 in all of it.
pub fn quote_path(
    k: &Kinematics,
    tol: Tolerances,
    poses: &[f64],
    joints: &[f64],
    scratch_joints: &mut [f64],
    scratch_tips: &mut [f64],
) -> Result<Figures, QuoteError>
    ensures answer { result ≡ S.quote_path k.now tol poses.now joints.now (length scratch_joints.old) (length scratch_tips.old) }
    ensures joints { scratch_joints.new ≡ S.scratch_left (S.quote_path k.now tol poses.now joints.now (length scratch_joints.old) (length scratch_tips.old)) scratch_joints.old }
    ensures tips { scratch_tips.new ≡ S.scratch_left (S.quote_path k.now tol poses.now joints.now (length scratch_joints.old) (length scratch_tips.old)) scratch_tips.old }
    ensures divided { AsDivided k.now tol poses.now joints.now (length scratch_joints.old) (length scratch_tips.old) result }
{
    quote_check(
        k,
        tol,
        poses,
        joints,
        scratch_joints.len(),
        scratch_tips.len(),
    )?;
    let given = GivenPath {
        count: poses.len() / 6,
        poses,
        joints,
    };
    CheckedPath { k, tol, given }.cleared(scratch_joints, scratch_tips)
}
