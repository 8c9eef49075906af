// The entries that quote a division.
ghost use Rattle.std.specs.Prelude.{◌≡◌, true, false, length};
ghost use Rattle.chain.specs.ChainBytes.{read_chain};
ghost use Rattle.middle.specs.Testing.{tolerances};
ghost use Rattle.quote.specs.Quotation.{scratch_left};
ghost use Rattle.maztubel.specs.QuoteEntries as S;

#[unsafe(no_mangle)]
pub extern "C" fn maztubel_quote(
    chain: &[u8],
    poses: &[f64],
    joints: &[f64],
    chord: f64,
    axis: f64,
    scratch_joints: &mut [f64],
    scratch_tips: &mut [f64],
    inserted: &mut u64,
    poses_out: &mut u64,
    evaluations: &mut u64,
    at: &mut u64,
    letter: &mut u8,
) -> u32
    ensures told { let answer = S.quote_of chain.now (tolerances false chord axis) poses.now joints.now (length scratch_joints.old) (length scratch_tips.old) in
        S.Told answer result inserted.new poses_out.new evaluations.new at.new letter.new }
    ensures scratch { let answer = S.quote_of chain.now (tolerances false chord axis) poses.now joints.now (length scratch_joints.old) (length scratch_tips.old) in
        (scratch_joints.new ≡ scratch_left answer scratch_joints.old) × (scratch_tips.new ≡ scratch_left answer scratch_tips.old) }
    ensures divided { let answer = S.quote_of chain.now (tolerances false chord axis) poses.now joints.now (length scratch_joints.old) (length scratch_tips.old) in
        S.QuotePromise (read_chain chain.now) (tolerances false chord axis) poses.now joints.now (length scratch_joints.old) (length scratch_tips.old) answer }
{
    maztubel::maztubel_quote(
        chain,
        poses,
        joints,
        chord,
        axis,
        scratch_joints,
        scratch_tips,
        inserted,
        poses_out,
        evaluations,
        at,
        letter,
    )
}

// The same of the strict division.
#[unsafe(no_mangle)]
pub extern "C" fn maztubel_quote_strict(
    chain: &[u8],
    poses: &[f64],
    joints: &[f64],
    chord: f64,
    axis: f64,
    scratch_joints: &mut [f64],
    scratch_tips: &mut [f64],
    inserted: &mut u64,
    poses_out: &mut u64,
    evaluations: &mut u64,
    at: &mut u64,
    letter: &mut u8,
) -> u32
    ensures told { let answer = S.quote_of chain.now (tolerances true chord axis) poses.now joints.now (length scratch_joints.old) (length scratch_tips.old) in
        S.Told answer result inserted.new poses_out.new evaluations.new at.new letter.new }
    ensures scratch { let answer = S.quote_of chain.now (tolerances true chord axis) poses.now joints.now (length scratch_joints.old) (length scratch_tips.old) in
        (scratch_joints.new ≡ scratch_left answer scratch_joints.old) × (scratch_tips.new ≡ scratch_left answer scratch_tips.old) }
    ensures divided { let answer = S.quote_of chain.now (tolerances true chord axis) poses.now joints.now (length scratch_joints.old) (length scratch_tips.old) in
        S.QuotePromise (read_chain chain.now) (tolerances true chord axis) poses.now joints.now (length scratch_joints.old) (length scratch_tips.old) answer }
{
    maztubel::maztubel_quote_strict(
        chain,
        poses,
        joints,
        chord,
        axis,
        scratch_joints,
        scratch_tips,
        inserted,
        poses_out,
        evaluations,
        at,
        letter,
    )
}
