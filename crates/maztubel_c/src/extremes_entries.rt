// The entries of the extremes beside a path.
ghost use Rattle.std.specs.Prelude.{◌≡◌, length};
ghost use Rattle.extremes.specs.Checking as Checking;
ghost use Rattle.extremes.specs.Entries as Entries;
ghost use Rattle.maztubel.specs.Lent as Lent;
ghost use Rattle.maztubel.specs.ExtremesEntries as S;

#[unsafe(no_mangle)]
pub extern "C" fn maztubel_build_extremes(joints: &[f64], summary: &mut [f64]) -> u32
    ensures number { result ≡ Lent.number_in (Checking.build_check joints.now (length summary.old)) }
    ensures lent { summary.new ≡ Entries.summary_built joints.now summary.old }
{
    maztubel::maztubel_build_extremes(joints, summary)
}

#[unsafe(no_mangle)]
pub extern "C" fn maztubel_replace_joints(
    joints: &mut [f64],
    summary: &mut [f64],
    index: u64,
    fresh: &[f64],
) -> u32
    ensures number { result ≡ Lent.number_in (Checking.replace_check (length joints.old) (length summary.old) index fresh.now) }
    ensures joints { joints.new ≡ Entries.joints_replaced joints.old summary.old index fresh.now }
    ensures summary { summary.new ≡ Entries.summary_replaced joints.old summary.old index fresh.now }
    ensures own { Entries.StaysOwn joints.old summary.old joints.new summary.new }
{
    maztubel::maztubel_replace_joints(joints, summary, index, fresh)
}

#[unsafe(no_mangle)]
pub extern "C" fn maztubel_first_above(
    joints: &[f64],
    summary: &[f64],
    rotary: u64,
    angle: f64,
    found: &mut u64,
    index: &mut u64,
) -> u32
    ensures number { result ≡ Lent.number_in (Entries.ask_of joints.now summary.now rotary angle) }
    ensures found { found.new ≡ S.found_over (Entries.ask_of joints.now summary.now rotary angle) found.old }
    ensures index { index.new ≡ S.index_over (Entries.ask_of joints.now summary.now rotary angle) index.old }
    ensures read { Entries.AsRead joints.now summary.now rotary angle (Entries.ask_of joints.now summary.now rotary angle) }
    ensures skipped { Entries.Skips joints.now summary.now rotary angle (Entries.ask_of joints.now summary.now rotary angle) }
{
    maztubel::maztubel_first_above(joints, summary, rotary, angle, found, index)
}
