// The entries of the dispatcher of a cell.
ghost use Rattle.std.specs.Prelude.{◌≡◌};
ghost use Rattle.cell.specs.State.{buffers};
ghost use Rattle.cell.specs.Turning.{turn_answer, turn_left, words_turned, numbers_turned};
ghost use Rattle.cell.specs.Asking.{next_answer, count_answer};
ghost use Rattle.cell.specs.Admitting.{admitted_in};
ghost use Rattle.cell.specs.Rows.{InRows};
ghost use Rattle.maztubel.specs.Lent as Lent;
ghost use Rattle.maztubel.specs.CellEntries as S;

#[unsafe(no_mangle)]
pub extern "C" fn maztubel_admit(
    words: &mut [u64],
    numbers: &mut [f64],
    chain: &[u8],
    poses: &[f64],
    joints: &[f64],
    chord: f64,
    axis: f64,
    out_poses: &mut [f64],
    out_joints: &mut [f64],
    path: &mut u64,
    at: &mut u64,
    letter: &mut u8,
) -> u32
    ensures number { let a = S.asked chain.now chord axis poses.now joints.now out_poses.old out_joints.old in
        result ≡ Lent.number_in (admitted_in (S.admit_of words.old numbers.old a)) }
    ensures path { let a = S.asked chain.now chord axis poses.now joints.now out_poses.old out_joints.old in
        path.new ≡ S.number_or S.no_path (admitted_in (S.admit_of words.old numbers.old a)) }
    ensures place { let a = S.asked chain.now chord axis poses.now joints.now out_poses.old out_joints.old in
        at.new ≡ Lent.place_in (admitted_in (S.admit_of words.old numbers.old a)) }
    ensures named { let a = S.asked chain.now chord axis poses.now joints.now out_poses.old out_joints.old in
        letter.new ≡ Lent.letter_in (admitted_in (S.admit_of words.old numbers.old a)) }
    ensures words { let a = S.asked chain.now chord axis poses.now joints.now out_poses.old out_joints.old in
        words.new ≡ S.words_admitted (S.admit_of words.old numbers.old a) words.old a }
    ensures numbers { let a = S.asked chain.now chord axis poses.now joints.now out_poses.old out_joints.old in
        numbers.new ≡ S.numbers_admitted (S.admit_of words.old numbers.old a) words.old numbers.old a }
    ensures poses { let a = S.asked chain.now chord axis poses.now joints.now out_poses.old out_joints.old in
        out_poses.new ≡ (S.outputs_admitted (S.admit_of words.old numbers.old a) a).poses }
    ensures joints { let a = S.asked chain.now chord axis poses.now joints.now out_poses.old out_joints.old in
        out_joints.new ≡ (S.outputs_admitted (S.admit_of words.old numbers.old a) a).joints }
    ensures rows { InRows words.old numbers.old }
{
    maztubel::maztubel_admit(
        words, numbers, chain, poses, joints, chord, axis, out_poses, out_joints, path, at, letter,
    )
}

#[unsafe(no_mangle)]
pub extern "C" fn maztubel_next(words: &[u64], path: &mut u64) -> u32
    ensures number { result ≡ Lent.number_in (next_answer words.now) }
    ensures path { path.new ≡ S.next_path (next_answer words.now) }
{
    maztubel::maztubel_next(words, path)
}

#[unsafe(no_mangle)]
pub extern "C" fn maztubel_turn(
    words: &mut [u64],
    numbers: &mut [f64],
    out_poses: &mut [f64],
    out_joints: &mut [f64],
    path: &mut u64,
    ended: &mut u8,
    inserted: &mut u64,
) -> u32
    ensures number { let answer = turn_answer words.old numbers.old (buffers out_poses.old out_joints.old) in
        result ≡ S.turn_number answer }
    ensures path { let answer = turn_answer words.old numbers.old (buffers out_poses.old out_joints.old) in
        path.new ≡ S.turn_path answer }
    ensures ended { let answer = turn_answer words.old numbers.old (buffers out_poses.old out_joints.old) in
        ended.new ≡ S.turn_ended answer }
    ensures count { let answer = turn_answer words.old numbers.old (buffers out_poses.old out_joints.old) in
        inserted.new ≡ S.turn_count answer }
    ensures words { let answer = turn_answer words.old numbers.old (buffers out_poses.old out_joints.old) in
        words.new ≡ words_turned answer words.old numbers.old }
    ensures numbers { let answer = turn_answer words.old numbers.old (buffers out_poses.old out_joints.old) in
        numbers.new ≡ numbers_turned answer words.old numbers.old }
    ensures poses { out_poses.new ≡ (turn_left words.old numbers.old (buffers out_poses.old out_joints.old)).poses }
    ensures joints { out_joints.new ≡ (turn_left words.old numbers.old (buffers out_poses.old out_joints.old)).joints }
    ensures rows { InRows words.old numbers.old }
{
    maztubel::maztubel_turn(words, numbers, out_poses, out_joints, path, ended, inserted)
}

#[unsafe(no_mangle)]
pub extern "C" fn maztubel_count(words: &[u64], path: u64, inserted: &mut u64) -> u32
    ensures number { result ≡ Lent.number_in (count_answer words.now path) }
    ensures count { inserted.new ≡ S.number_or 0 (count_answer words.now path) }
{
    maztubel::maztubel_count(words, path, inserted)
}
