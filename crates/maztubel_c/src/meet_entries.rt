// The entry that asks whether links meet.
ghost use Rattle.std.specs.Prelude.{◌≡◌};
ghost use Rattle.chain.specs.ChainBytes.{read_chain};
ghost use Rattle.maztubel.specs.Lent as Lent;
ghost use Rattle.maztubel.specs.MeetEntries as S;

#[unsafe(no_mangle)]
pub extern "C" fn maztubel_links_meet(
    name: &[u8],
    chain: &[u8],
    model: &[u8],
    joints: &[f64],
    found: &mut u64,
    pose: &mut u64,
    first: &mut u64,
    second: &mut u64,
    at: &mut u64,
    letter: &mut u8,
) -> u32
    ensures { let answer = S.meet_of name.now chain.now model.now joints.now in
        (result ≡ Lent.number_in answer)
        × (at.new ≡ Lent.place_in answer)
        × (letter.new ≡ Lent.letter_in answer)
        × (found.new ≡ S.found_over answer found.old)
        × (pose.new ≡ S.pose_over answer pose.old)
        × (first.new ≡ S.first_over answer first.old)
        × (second.new ≡ S.second_over answer second.old)
        × S.MeetPromise (read_chain chain.now) name.now model.now joints.now answer }
{
    maztubel::maztubel_links_meet(
        name, chain, model, joints, found, pose, first, second, at, letter,
    )
}
