// The entries of quotas.
ghost use Rattle.std.specs.Prelude.{◌≡◌, false, length};
ghost use Rattle.chain.specs.ChainBytes.{read_chain};
ghost use Rattle.middle.specs.Testing.{tolerances};
ghost use Rattle.divide.specs.Subdividing.{division_in, poses_left, joints_left};
ghost use Rattle.quota.specs.Quota.{grant_check, charged_division};
ghost use Rattle.quota.specs.Calls.{Grant, Divide, after};
ghost use Rattle.maztubel.specs.Lent.{number_in};
ghost use Rattle.maztubel.specs.DivideEntries.{subdivide_of, division_number, inserted_in, division_place, division_letter};
ghost use Rattle.maztubel.specs.QuotaEntries as S;

#[unsafe(no_mangle)]
pub extern "C" fn maztubel_grant(balances: &mut [u64], shop: u64, amount: u64) -> u32
    ensures number { result ≡ number_in (grant_check balances.old shop amount) }
    ensures balances { balances.new ≡ after balances.old (Grant shop amount) }
{
    maztubel::maztubel_grant(balances, shop, amount)
}

#[unsafe(no_mangle)]
pub extern "C" fn maztubel_divide_for(
    balances: &mut [u64],
    shop: u64,
    chain: &[u8],
    poses: &[f64],
    joints: &[f64],
    chord: f64,
    axis: f64,
    out_poses: &mut [f64],
    out_joints: &mut [f64],
    inserted: &mut u64,
    at: &mut u64,
    letter: &mut u8,
) -> u32
    ensures number { let plain = subdivide_of chain.now (tolerances false chord axis) poses.now joints.now (length out_poses.old) (length out_joints.old) in
        result ≡ division_number (division_in (charged_division balances.old shop plain)) }
    ensures count { let plain = subdivide_of chain.now (tolerances false chord axis) poses.now joints.now (length out_poses.old) (length out_joints.old) in
        inserted.new ≡ inserted_in (division_in (charged_division balances.old shop plain)) }
    ensures place { let plain = subdivide_of chain.now (tolerances false chord axis) poses.now joints.now (length out_poses.old) (length out_joints.old) in
        at.new ≡ division_place (division_in (charged_division balances.old shop plain)) }
    ensures named { let plain = subdivide_of chain.now (tolerances false chord axis) poses.now joints.now (length out_poses.old) (length out_joints.old) in
        letter.new ≡ division_letter (division_in (charged_division balances.old shop plain)) }
    ensures poses { let plain = subdivide_of chain.now (tolerances false chord axis) poses.now joints.now (length out_poses.old) (length out_joints.old) in
        out_poses.new ≡ poses_left (charged_division balances.old shop plain) out_poses.old }
    ensures joints { let plain = subdivide_of chain.now (tolerances false chord axis) poses.now joints.now (length out_poses.old) (length out_joints.old) in
        out_joints.new ≡ joints_left (charged_division balances.old shop plain) out_joints.old }
    ensures balances { let plain = subdivide_of chain.now (tolerances false chord axis) poses.now joints.now (length out_poses.old) (length out_joints.old) in
        balances.new ≡ after balances.old (Divide shop plain) }
    ensures price { let plain = subdivide_of chain.now (tolerances false chord axis) poses.now joints.now (length out_poses.old) (length out_joints.old) in
        S.ChargedPromise (read_chain chain.now) balances.old shop plain (tolerances false chord axis) poses.now joints.now (length out_poses.old) (length out_joints.old) (division_in (charged_division balances.old shop plain)) out_poses.new out_joints.new }
    ensures says { let plain = subdivide_of chain.now (tolerances false chord axis) poses.now joints.now (length out_poses.old) (length out_joints.old) in
        S.ChargedSays result balances.old shop plain (division_in (charged_division balances.old shop plain)) }
{
    maztubel::maztubel_divide_for(
        balances, shop, chain, poses, joints, chord, axis, out_poses, out_joints, inserted, at,
        letter,
    )
}
