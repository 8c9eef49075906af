// The entries of a chain.
ghost use Rattle.std.specs.Prelude.{◌≡◌, length};
ghost use Rattle.maztubel.specs.Lent as Lent;
ghost use Rattle.maztubel.specs.ChainEntries as S;

#[unsafe(no_mangle)]
pub extern "C" fn maztubel_check_chain(chain: &[u8], at: &mut u64, letter: &mut u8) -> u32
    ensures number { result ≡ Lent.number_in (S.check_chain chain.now) }
    ensures place { at.new ≡ Lent.place_in (S.check_chain chain.now) }
    ensures named { letter.new ≡ Lent.letter_in (S.check_chain chain.now) }
{
    maztubel::maztubel_check_chain(chain, at, letter)
}

#[unsafe(no_mangle)]
pub extern "C" fn maztubel_forward(
    chain: &[u8],
    joints: &[f64],
    tool_length: f64,
    pose: &mut [f64],
    at: &mut u64,
    letter: &mut u8,
) -> u32
    ensures number { result ≡ Lent.number_in (S.forward_of chain.now joints.now tool_length (length pose.old)) }
    ensures place { at.new ≡ Lent.place_in (S.forward_of chain.now joints.now tool_length (length pose.old)) }
    ensures named { letter.new ≡ Lent.letter_in (S.forward_of chain.now joints.now tool_length (length pose.old)) }
    ensures lent { pose.new ≡ S.pose_over (S.forward_of chain.now joints.now tool_length (length pose.old)) pose.old }
{
    maztubel::maztubel_forward(chain, joints, tool_length, pose, at, letter)
}
