// The entries of the extremes beside a path. A refusal changes nothing that is lent; none has a place or a letter.
ghost use Rattle.std.specs.Prelude.{◌≡◌, length};
ghost use Rattle.extremes.specs.Checking as Checking;
ghost use Rattle.extremes.specs.Entries as Entries;
ghost use Rattle.maztubel.specs.Lent as Lent;
ghost use Rattle.maztubel.specs.ExtremesEntries as S;

use crate::lent::number_in;
use refusal::Refusal;

pub fn maztubel_build_extremes(joints: &[f64], summary: &mut [f64]) -> u32
    ensures number { result ≡ Lent.number_in (Checking.build_check joints.now (length summary.old)) }
    ensures lent { summary.new ≡ Entries.summary_built joints.now summary.old }
{
    let checked = extremes::build(joints, summary);
    number_in(&checked)
}

pub fn maztubel_replace_joints(
    joints: &mut [f64],
    summary: &mut [f64],
    index: u64,
    fresh: &[f64],
) -> u32
    ensures number { result ≡ Lent.number_in (Checking.replace_check (length joints.old) (length summary.old) index fresh.now) }
    ensures joints { joints.new ≡ Entries.joints_replaced joints.old summary.old index fresh.now }
    ensures summary { summary.new ≡ Entries.summary_replaced joints.old summary.old index fresh.now }
    ensures own { Entries.StaysOwn joints.old summary.old joints.new summary.new }
{
    let checked = extremes::replace(joints, summary, index as usize, fresh);
    number_in(&checked)
}

pub fn maztubel_first_above(
    joints: &[f64],
    summary: &[f64],
    rotary: u64,
    angle: f64,
    found: &mut u64,
    index: &mut u64,
) -> u32
    ensures number { result ≡ Lent.number_in (Entries.ask_of joints.now summary.now rotary angle) }
    ensures found { found.new ≡ S.found_over (Entries.ask_of joints.now summary.now rotary angle) found.old }
    ensures index { index.new ≡ S.index_over (Entries.ask_of joints.now summary.now rotary angle) index.old }
    ensures read { Entries.AsRead joints.now summary.now rotary angle (Entries.ask_of joints.now summary.now rotary angle) }
    ensures skipped { Entries.Skips joints.now summary.now rotary angle (Entries.ask_of joints.now summary.now rotary angle) }
{
    let asked = extremes::ask(joints, summary, rotary as usize, angle);
    put_asked(asked, found, index);
    number_in(&asked)
}

// Beside `put_cable` and `put_meeting`, as a line at the first of these says.
fn put_asked(asked: Result<Option<usize>, Refusal>, found: &mut u64, index: &mut u64)
    ensures found { found.new ≡ S.found_over asked found.old }
    ensures index { index.new ≡ S.index_over asked index.old }
{
    match asked {
        Ok(Some(i)) => {
            *found = 1;
            *index = i as u64;
        }
        Ok(None) => {
            *found = 0;
            *index = 0;
        }
        Err(_) => {}
    }
}
