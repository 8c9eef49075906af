// The entries of quotas. A case has the balances where another has a name, and the shop and the amount where another
// has a model, eight bytes each.
use crate::cases;
use crate::cases::Case;
use crate::told::{Numbers, WholeNumbers, called};
use arrayvec::ArrayVec;
use std::io;
use std::io::Write;

fn balances_of(case: &Case) -> ArrayVec<u64, 40> {
    cases::read_each(cases::in_words(case.name), cases::whole_number)
}

// The shop, and how much; 0 where it is not there.
fn asked_of(case: &Case) -> (u64, u64) {
    let words = cases::in_words(case.model);
    let shop = words.first().map_or(0, cases::whole_number);
    let amount = words.get(1).map_or(0, cases::whole_number);
    (shop, amount)
}

pub fn grant<W: Write>(out: &mut W, case: &Case) -> io::Result<()> {
    let mut balances = balances_of(case);
    let (shop, amount) = asked_of(case);
    let number = maztubel::maztubel_grant(balances.as_mut_slice(), shop, amount);
    writeln!(out, "grant {number} 0 0{}", WholeNumbers(&balances))
}

pub fn divide_for<W: Write>(
    out: &mut W,
    case: &Case,
    poses: &[f64],
    joints: &[f64],
    out_poses: &mut [f64],
    out_joints: &mut [f64],
) -> io::Result<()> {
    let mut balances = balances_of(case);
    let (shop, _) = asked_of(case);
    let mut inserted: u64 = 7;
    called(out, "divide_for", |at, letter| {
        maztubel::maztubel_divide_for(
            balances.as_mut_slice(),
            shop,
            case.chain_or_job,
            poses,
            joints,
            case.single(0),
            case.single(1),
            out_poses,
            out_joints,
            &mut inserted,
            at,
            letter,
        )
    })?;
    write!(out, " {inserted}{}", WholeNumbers(&balances))?;
    writeln!(out, "{}{}", Numbers(out_poses), Numbers(out_joints))
}
