// The entries that divide a path.
ghost use Rattle.std.specs.Prelude.{◌≡◌, true, false, length};
ghost use Rattle.chain.specs.ChainBytes.{read_chain};
ghost use Rattle.middle.specs.Testing.{tolerances};
ghost use Rattle.divide.specs.Subdividing.{division_in, poses_left, joints_left};
ghost use Rattle.maztubel.specs.PathEntries.{start_in};
ghost use Rattle.maztubel.specs.DivideEntries as S;

#[unsafe(no_mangle)]
pub extern "C" fn maztubel_subdivide_path(
    chain: &[u8],
    poses: &[f64],
    joints: &[f64],
    chord: f64,
    axis: f64,
    out_poses: &mut [f64],
    out_joints: &mut [f64],
    inserted: &mut u64,
    at: &mut u64,
    letter: &mut u8,
) -> u32
    ensures number { result ≡ S.division_number (division_in (S.subdivide_of chain.now (tolerances false chord axis) poses.now joints.now (length out_poses.old) (length out_joints.old))) }
    ensures count { inserted.new ≡ S.inserted_in (division_in (S.subdivide_of chain.now (tolerances false chord axis) poses.now joints.now (length out_poses.old) (length out_joints.old))) }
    ensures place { at.new ≡ S.division_place (division_in (S.subdivide_of chain.now (tolerances false chord axis) poses.now joints.now (length out_poses.old) (length out_joints.old))) }
    ensures named { letter.new ≡ S.division_letter (division_in (S.subdivide_of chain.now (tolerances false chord axis) poses.now joints.now (length out_poses.old) (length out_joints.old))) }
    ensures poses { out_poses.new ≡ poses_left (S.subdivide_of chain.now (tolerances false chord axis) poses.now joints.now (length out_poses.old) (length out_joints.old)) out_poses.old }
    ensures joints { out_joints.new ≡ joints_left (S.subdivide_of chain.now (tolerances false chord axis) poses.now joints.now (length out_poses.old) (length out_joints.old)) out_joints.old }
    ensures price { S.SubdividePromise (read_chain chain.now) (tolerances false chord axis) poses.now joints.now (length out_poses.old) (length out_joints.old) (division_in (S.subdivide_of chain.now (tolerances false chord axis) poses.now joints.now (length out_poses.old) (length out_joints.old))) out_poses.new out_joints.new }
    ensures says { S.Says result (division_in (S.subdivide_of chain.now (tolerances false chord axis) poses.now joints.now (length out_poses.old) (length out_joints.old))) }
{
    maztubel::maztubel_subdivide_path(
        chain, poses, joints, chord, axis, out_poses, out_joints, inserted, at, letter,
    )
}

// The same with the strict test: both quarters are held to the tolerances too.
#[unsafe(no_mangle)]
pub extern "C" fn maztubel_subdivide_strict(
    chain: &[u8],
    poses: &[f64],
    joints: &[f64],
    chord: f64,
    axis: f64,
    out_poses: &mut [f64],
    out_joints: &mut [f64],
    inserted: &mut u64,
    at: &mut u64,
    letter: &mut u8,
) -> u32
    ensures number { result ≡ S.division_number (division_in (S.subdivide_of chain.now (tolerances true chord axis) poses.now joints.now (length out_poses.old) (length out_joints.old))) }
    ensures count { inserted.new ≡ S.inserted_in (division_in (S.subdivide_of chain.now (tolerances true chord axis) poses.now joints.now (length out_poses.old) (length out_joints.old))) }
    ensures place { at.new ≡ S.division_place (division_in (S.subdivide_of chain.now (tolerances true chord axis) poses.now joints.now (length out_poses.old) (length out_joints.old))) }
    ensures named { letter.new ≡ S.division_letter (division_in (S.subdivide_of chain.now (tolerances true chord axis) poses.now joints.now (length out_poses.old) (length out_joints.old))) }
    ensures poses { out_poses.new ≡ poses_left (S.subdivide_of chain.now (tolerances true chord axis) poses.now joints.now (length out_poses.old) (length out_joints.old)) out_poses.old }
    ensures joints { out_joints.new ≡ joints_left (S.subdivide_of chain.now (tolerances true chord axis) poses.now joints.now (length out_poses.old) (length out_joints.old)) out_joints.old }
    ensures price { S.SubdividePromise (read_chain chain.now) (tolerances true chord axis) poses.now joints.now (length out_poses.old) (length out_joints.old) (division_in (S.subdivide_of chain.now (tolerances true chord axis) poses.now joints.now (length out_poses.old) (length out_joints.old))) out_poses.new out_joints.new }
    ensures says { S.Says result (division_in (S.subdivide_of chain.now (tolerances true chord axis) poses.now joints.now (length out_poses.old) (length out_joints.old))) }
{
    maztubel::maztubel_subdivide_strict(
        chain, poses, joints, chord, axis, out_poses, out_joints, inserted, at, letter,
    )
}

#[unsafe(no_mangle)]
pub extern "C" fn maztubel_solve_and_divide(
    chain: &[u8],
    poses: &[f64],
    start: &[f64],
    cone: f64,
    chord: f64,
    axis: f64,
    out_poses: &mut [f64],
    out_joints: &mut [f64],
    inserted: &mut u64,
    at: &mut u64,
    letter: &mut u8,
) -> u32
    ensures number { result ≡ S.division_number (division_in (S.both_of chain.now poses.now start.now cone (tolerances false chord axis) (length out_poses.old) (length out_joints.old))) }
    ensures count { inserted.new ≡ S.inserted_in (division_in (S.both_of chain.now poses.now start.now cone (tolerances false chord axis) (length out_poses.old) (length out_joints.old))) }
    ensures place { at.new ≡ S.division_place (division_in (S.both_of chain.now poses.now start.now cone (tolerances false chord axis) (length out_poses.old) (length out_joints.old))) }
    ensures named { letter.new ≡ S.division_letter (division_in (S.both_of chain.now poses.now start.now cone (tolerances false chord axis) (length out_poses.old) (length out_joints.old))) }
    ensures poses { out_poses.new ≡ poses_left (S.both_of chain.now poses.now start.now cone (tolerances false chord axis) (length out_poses.old) (length out_joints.old)) out_poses.old }
    ensures joints { out_joints.new ≡ joints_left (S.both_of chain.now poses.now start.now cone (tolerances false chord axis) (length out_poses.old) (length out_joints.old)) out_joints.old }
    ensures price { S.BothPromise (S.both_lengths (length poses.now) (length start.now) (length out_poses.old) (length out_joints.old)) (read_chain chain.now) poses.now (start_in start.now) cone (tolerances false chord axis) (division_in (S.both_of chain.now poses.now start.now cone (tolerances false chord axis) (length out_poses.old) (length out_joints.old))) out_poses.old out_joints.old out_poses.new out_joints.new }
    ensures says { S.Says result (division_in (S.both_of chain.now poses.now start.now cone (tolerances false chord axis) (length out_poses.old) (length out_joints.old))) }
{
    maztubel::maztubel_solve_and_divide(
        chain, poses, start, cone, chord, axis, out_poses, out_joints, inserted, at, letter,
    )
}
