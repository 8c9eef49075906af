// The entry of the positioning profile.
ghost use Rattle.std.specs.Prelude.{length};
ghost use Rattle.maztubel.specs.ToothEntries as S;

#[unsafe(no_mangle)]
pub extern "C" fn maztubel_choose_tooth(
    chain: &[u8],
    pose: &[f64],
    tool_length: f64,
    choice: u32,
    hint: &[f64],
    tolerance: f64,
    joints: &mut [f64],
    at: &mut u64,
    letter: &mut u8,
) -> u32
    ensures { let answer = S.tooth_of chain.now pose.now tool_length choice hint.now tolerance (length joints.old) in
        S.Handed answer result at.new letter.new joints.old joints.new }
{
    maztubel::maztubel_choose_tooth(
        chain,
        pose,
        tool_length,
        choice,
        hint,
        tolerance,
        joints,
        at,
        letter,
    )
}
