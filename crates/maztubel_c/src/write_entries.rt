// The entry that writes a job.
ghost use Rattle.std.specs.Prelude.{◌≡◌, false};
ghost use Rattle.std.proofs.Math.ListN as ListN;
ghost use Rattle.chain.specs.ChainBytes.{read_chain};
ghost use Rattle.middle.specs.Testing.{tolerances};
ghost use Rattle.maztubel.specs.Lent as Lent;
ghost use Rattle.maztubel.specs.WriteEntries as S;

#[unsafe(no_mangle)]
pub extern "C" fn maztubel_write_job(
    chain: &[u8],
    poses: &[f64],
    cone: f64,
    chord: f64,
    axis: f64,
    job: &mut [u8],
    length: &mut u64,
    at: &mut u64,
    letter: &mut u8,
) -> u32
    ensures number { result ≡ Lent.number_in (S.write_of chain.now poses.now cone (tolerances false chord axis) (ListN.length job.old)) }
    ensures length { length.new ≡ S.length_in (S.write_of chain.now poses.now cone (tolerances false chord axis) (ListN.length job.old)) }
    ensures place { at.new ≡ Lent.place_in (S.write_of chain.now poses.now cone (tolerances false chord axis) (ListN.length job.old)) }
    ensures named { letter.new ≡ Lent.letter_in (S.write_of chain.now poses.now cone (tolerances false chord axis) (ListN.length job.old)) }
    ensures lent { job.new ≡ S.job_left chain.now poses.now cone (tolerances false chord axis) job.old }
    ensures promise { S.WritePromise (read_chain chain.now) poses.now cone (tolerances false chord axis) (ListN.length job.old) }
{
    maztubel::maztubel_write_job(chain, poses, cone, chord, axis, job, length, at, letter)
}
