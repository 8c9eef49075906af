// The entries that quote a division, the Rust's or the strict one: its figures, with no path written. The three
// figures, the place and the letter are written by every call; a refusal of the checks keeps both scratches, and every
// other answer leaves +0.0 in them.
ghost use Rattle.std.specs.Prelude.{◌≡◌, true, false, length};
ghost use Rattle.chain.specs.ChainBytes.{read_chain};
ghost use Rattle.middle.specs.Testing.{tolerances};
ghost use Rattle.quote.specs.Quotation.{scratch_left};
ghost use Rattle.maztubel.specs.QuoteEntries as S;

use crate::lent::hand_back;
use chain::{Kinematics, demand};
use middle::Tolerances;
use quote::{Figures, QuoteError};
use refusal::{Cause, Refusal};

#[tactic(auto, using(crate::proofs::QuotesFor::quote_promised))]
pub fn maztubel_quote(
    chain: &[u8],
    poses: &[f64],
    joints: &[f64],
    chord: f64,
    axis: f64,
    scratch_joints: &mut [f64],
    scratch_tips: &mut [f64],
    inserted: &mut u64,
    poses_out: &mut u64,
    evaluations: &mut u64,
    at: &mut u64,
    letter: &mut u8,
) -> u32
    ensures told { let answer = S.quote_of chain.now (tolerances false chord axis) poses.now joints.now (length scratch_joints.old) (length scratch_tips.old) in
        S.Told answer result inserted.new poses_out.new evaluations.new at.new letter.new }
    ensures scratch { let answer = S.quote_of chain.now (tolerances false chord axis) poses.now joints.now (length scratch_joints.old) (length scratch_tips.old) in
        (scratch_joints.new ≡ scratch_left answer scratch_joints.old) × (scratch_tips.new ≡ scratch_left answer scratch_tips.old) }
    ensures divided { let answer = S.quote_of chain.now (tolerances false chord axis) poses.now joints.now (length scratch_joints.old) (length scratch_tips.old) in
        S.QuotePromise (read_chain chain.now) (tolerances false chord axis) poses.now joints.now (length scratch_joints.old) (length scratch_tips.old) answer }
{
    let tol = Tolerances {
        chord,
        axis,
        strict: false,
    };
    let answer = quote_of(chain, tol, poses, joints, scratch_joints, scratch_tips);
    let figures = figures_in(answer);
    *inserted = figures.inserted;
    *poses_out = figures.poses;
    *evaluations = figures.evaluations;
    hand_back(&refusal_in(answer), at, letter)
}

// The same of the strict division.
#[tactic(auto, using(crate::proofs::QuotesFor::quote_promised))]
pub fn maztubel_quote_strict(
    chain: &[u8],
    poses: &[f64],
    joints: &[f64],
    chord: f64,
    axis: f64,
    scratch_joints: &mut [f64],
    scratch_tips: &mut [f64],
    inserted: &mut u64,
    poses_out: &mut u64,
    evaluations: &mut u64,
    at: &mut u64,
    letter: &mut u8,
) -> u32
    ensures told { let answer = S.quote_of chain.now (tolerances true chord axis) poses.now joints.now (length scratch_joints.old) (length scratch_tips.old) in
        S.Told answer result inserted.new poses_out.new evaluations.new at.new letter.new }
    ensures scratch { let answer = S.quote_of chain.now (tolerances true chord axis) poses.now joints.now (length scratch_joints.old) (length scratch_tips.old) in
        (scratch_joints.new ≡ scratch_left answer scratch_joints.old) × (scratch_tips.new ≡ scratch_left answer scratch_tips.old) }
    ensures divided { let answer = S.quote_of chain.now (tolerances true chord axis) poses.now joints.now (length scratch_joints.old) (length scratch_tips.old) in
        S.QuotePromise (read_chain chain.now) (tolerances true chord axis) poses.now joints.now (length scratch_joints.old) (length scratch_tips.old) answer }
{
    let tol = Tolerances {
        chord,
        axis,
        strict: true,
    };
    let answer = quote_of(chain, tol, poses, joints, scratch_joints, scratch_tips);
    let figures = figures_in(answer);
    *inserted = figures.inserted;
    *poses_out = figures.poses;
    *evaluations = figures.evaluations;
    hand_back(&refusal_in(answer), at, letter)
}

#[tactic(auto, unfolding(crate::specs::QuoteEntries::quote_whole))]
fn quote_whole(poses: usize, joints: usize, room_joints: usize, room_tips: usize) -> bool
    ensures { result ≡ S.quote_whole poses joints room_joints room_tips }
{
    path::whole_records(poses, joints) && quote::scratch_whole(room_joints, room_tips)
}

fn quote_of(
    chain: &[u8],
    tol: Tolerances,
    poses: &[f64],
    joints: &[f64],
    scratch_joints: &mut [f64],
    scratch_tips: &mut [f64],
) -> Result<Figures, QuoteError>
    ensures answer { result ≡ S.quote_of chain.now tol poses.now joints.now (length scratch_joints.old) (length scratch_tips.old) }
    ensures joints { scratch_joints.new ≡ scratch_left result scratch_joints.old }
    ensures tips { scratch_tips.new ≡ scratch_left result scratch_tips.old }
{
    let whole = quote_whole(
        poses.len(),
        joints.len(),
        scratch_joints.len(),
        scratch_tips.len(),
    );
    demand(whole, Cause::LengthsDiffer, 0)?;
    let mut k = Kinematics::default();
    chain::read_chain_into(chain, &mut k)?;
    quote::quote_path(&k, tol, poses, joints, scratch_joints, scratch_tips)
}

fn refusal_in(answer: Result<Figures, QuoteError>) -> Result<(), Refusal>
    ensures { result ≡ S.refusal_in answer }
{
    answer?;
    Ok(())
}

fn figures_in(answer: Result<Figures, QuoteError>) -> Figures
    ensures { result ≡ S.figures_in answer }
{
    match answer {
        Ok(figures) => figures,
        Err(QuoteError::Refused(_)) => Figures::default(),
        Err(QuoteError::Stopped(stop)) => Figures {
            inserted: stop.inserted(),
            ..Figures::default()
        },
    }
}
