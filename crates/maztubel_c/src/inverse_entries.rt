// The entries of the inverse map.
ghost use Rattle.std.specs.Prelude.{◌≡◌, length};
ghost use Rattle.maztubel.specs.Lent as Lent;
ghost use Rattle.maztubel.specs.InverseEntries as S;

#[unsafe(no_mangle)]
pub extern "C" fn maztubel_inverse(
    chain: &[u8],
    pose: &[f64],
    tool_length: f64,
    hint: &[f64],
    list: &mut [f64],
    count: &mut u64,
    at: &mut u64,
    letter: &mut u8,
) -> u32
    ensures number { result ≡ Lent.number_in (S.inverse_of chain.now pose.now tool_length hint.now (length list.old)) }
    ensures place { at.new ≡ Lent.place_in (S.inverse_of chain.now pose.now tool_length hint.now (length list.old)) }
    ensures named { letter.new ≡ Lent.letter_in (S.inverse_of chain.now pose.now tool_length hint.now (length list.old)) }
    ensures lent { list.new ≡ S.list_over (S.inverse_of chain.now pose.now tool_length hint.now (length list.old)) list.old }
    ensures counted { count.new ≡ S.count_over (S.inverse_of chain.now pose.now tool_length hint.now (length list.old)) count.old }
{
    maztubel::maztubel_inverse(chain, pose, tool_length, hint, list, count, at, letter)
}

#[unsafe(no_mangle)]
pub extern "C" fn maztubel_choose(
    chain: &[u8],
    pose: &[f64],
    tool_length: f64,
    choice: u32,
    hint: &[f64],
    joints: &mut [f64],
    at: &mut u64,
    letter: &mut u8,
) -> u32
    ensures number { result ≡ Lent.number_in (S.choose_of chain.now pose.now tool_length choice hint.now (length joints.old)) }
    ensures place { at.new ≡ Lent.place_in (S.choose_of chain.now pose.now tool_length choice hint.now (length joints.old)) }
    ensures named { letter.new ≡ Lent.letter_in (S.choose_of chain.now pose.now tool_length choice hint.now (length joints.old)) }
    ensures lent { joints.new ≡ S.joints_over (S.choose_of chain.now pose.now tool_length choice hint.now (length joints.old)) joints.old }
{
    maztubel::maztubel_choose(chain, pose, tool_length, choice, hint, joints, at, letter)
}
