// The entries of a job.
ghost use Rattle.std.specs.Prelude.{◌≡◌, length};
ghost use Rattle.chain.specs.ChainBytes.{read_chain};
ghost use Rattle.job.specs.JobBytes.{read_job};
ghost use Rattle.job.specs.JobPoses.{poses_check, job_poses};
ghost use Rattle.maztubel.specs.Lent as Lent;
ghost use Rattle.maztubel.specs.JobEntries as S;

#[unsafe(no_mangle)]
pub extern "C" fn maztubel_read_job(
    job: &[u8],
    chain_at: &mut u64,
    chain_length: &mut u64,
    poses_at: &mut u64,
    count: &mut u64,
    cone: &mut f64,
    chord: &mut f64,
    axis: &mut f64,
    at: &mut u64,
) -> u32
    ensures number { result ≡ Lent.number_in (read_job job.now) }
    ensures place { at.new ≡ Lent.place_in (read_job job.now) }
    ensures chain { chain_at.new ≡ S.chain_over (read_job job.now) chain_at.old }
    ensures length { chain_length.new ≡ S.length_over (read_job job.now) chain_length.old }
    ensures poses { poses_at.new ≡ S.poses_over (read_job job.now) poses_at.old }
    ensures count { count.new ≡ S.count_over (read_job job.now) count.old }
    ensures cone { cone.new ≡ S.cone_over (read_job job.now) cone.old }
    ensures chord { chord.new ≡ S.chord_over (read_job job.now) chord.old }
    ensures axis { axis.new ≡ S.axis_over (read_job job.now) axis.old }
    ensures promise { S.ChainPromise job.now (read_job job.now) }
{
    maztubel::maztubel_read_job(
        job,
        chain_at,
        chain_length,
        poses_at,
        count,
        cone,
        chord,
        axis,
        at,
    )
}

#[unsafe(no_mangle)]
pub extern "C" fn maztubel_job_poses(job: &[u8], poses: &mut [f64], at: &mut u64) -> u32
    ensures number { result ≡ Lent.number_in (poses_check (read_job job.now) (length poses.old)) }
    ensures place { at.new ≡ Lent.place_in (poses_check (read_job job.now) (length poses.old)) }
    ensures lent { poses.new ≡ job_poses job.now poses.old }
{
    maztubel::maztubel_job_poses(job, poses, at)
}

#[unsafe(no_mangle)]
pub extern "C" fn maztubel_cable_number(
    chain: &[u8],
    joints: &[f64],
    rotary: u64,
    number: &mut u64,
    at: &mut u64,
    letter: &mut u8,
) -> u32
    ensures number { result ≡ Lent.number_in (S.cable_of chain.now joints.now rotary) }
    ensures place { at.new ≡ Lent.place_in (S.cable_of chain.now joints.now rotary) }
    ensures named { letter.new ≡ Lent.letter_in (S.cable_of chain.now joints.now rotary) }
    ensures lent { number.new ≡ S.number_over (S.cable_of chain.now joints.now rotary) number.old }
    ensures largest { S.CablePromise (read_chain chain.now) joints.now rotary (S.cable_of chain.now joints.now rotary) }
{
    maztubel::maztubel_cable_number(chain, joints, rotary, number, at, letter)
}
