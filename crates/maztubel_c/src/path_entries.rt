// The entry of a path.
ghost use Rattle.std.specs.Prelude.{◌≡◌, length};
ghost use Rattle.chain.specs.ChainBytes.{read_chain};
ghost use Rattle.path.specs.Solving as Path;
ghost use Rattle.maztubel.specs.Lent as Lent;
ghost use Rattle.maztubel.specs.PathEntries as S;

#[unsafe(no_mangle)]
pub extern "C" fn maztubel_solve_path(
    chain: &[u8],
    poses: &[f64],
    start: &[f64],
    cone: f64,
    joints: &mut [f64],
    at: &mut u64,
    letter: &mut u8,
) -> u32
    ensures number { result ≡ Lent.number_in (Path.checked_in (S.solve_path_of chain.now poses.now start.now cone (length joints.old))) }
    ensures place { at.new ≡ Lent.place_in (Path.checked_in (S.solve_path_of chain.now poses.now start.now cone (length joints.old))) }
    ensures named { letter.new ≡ Lent.letter_in (Path.checked_in (S.solve_path_of chain.now poses.now start.now cone (length joints.old))) }
    ensures lent { joints.new ≡ Path.path_over (S.solve_path_of chain.now poses.now start.now cone (length joints.old)) joints.old }
    ensures served { S.Promised (read_chain chain.now) (S.solve_path_of chain.now poses.now start.now cone (length joints.old)) }
{
    maztubel::maztubel_solve_path(chain, poses, start, cone, joints, at, letter)
}
