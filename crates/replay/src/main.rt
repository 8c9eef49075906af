// Replays a fixed sample of the Rust's answers over every entry of `maztubel` but the slice forms, without the Rust:
// reads cases from standard input, calls the entry of each, and writes a line for each, with the number, what goes with
// it, and what was lent, afterwards. README.md says what a case and a line are, and how both files were made.
#![tactic(auto)]

mod cases;
mod cells;
mod entries;
mod functions;
mod paths;
mod quotas;
mod summaries;
mod told;

use arrayvec::ArrayVec;
use cases::Case;
use std::io;
use std::io::{Read, Write};
use text::read_full;

const MOST_CASES: usize = 100000;

// Until the input ends. Tried as `while next_case(..)? {}`: such a loop wants a number that grows smaller, and of
// standard input nothing says how much is left. So the turns are counted.
fn main(rt: HostRuntime) -> io::Result<()> {
    let mut input = rt.stdin();
    let mut out = rt.stdout();
    for _ in 0..MOST_CASES {
        if !next_case(&mut input, &mut out)? {
            break;
        }
    }
    out.flush()
}

// Whether there was one. The longest has a job of one byte too many; one that is longer has no bytes.
fn next_case<R: Read, W: Write>(input: &mut R, out: &mut W) -> io::Result<bool> {
    let mut head = [0u8; 4];
    read_full(input, &mut head);
    let length = u32::from_le_bytes(head) as usize;
    let mut bytes = [0u8; 65600];
    if bytes.len() < length {
        return Ok(false);
    }
    let n = read_full(input, &mut bytes[..length]);
    if n == 0 {
        return Ok(false);
    }
    replay(out, &Case::read(&bytes[..n]))?;
    Ok(true)
}

// What is lent holds 7.25 before the call. There is space for 10,000 poses more than two, with which a division can
// come to 27, and for the scratch of a quotation.
fn replay<W: Write>(out: &mut W, case: &Case) -> io::Result<()> {
    let first: ArrayVec<f64, 128> = cases::read_each(case.first, cases::number);
    let second: ArrayVec<f64, 128> = cases::read_each(case.second, cases::number);
    let mut lent = [7.25f64; 60012];
    let mut other = [7.25f64; 50010];
    call(
        out,
        case,
        &first,
        &second,
        cases::lent(&mut lent, case.room),
        cases::lent(&mut other, case.other_room),
    )
}

// By number, as the case has it: an enum of the entries would write each of their names twice more.
fn call<W: Write>(
    out: &mut W,
    case: &Case,
    first: &[f64],
    second: &[f64],
    lent: &mut [f64],
    other: &mut [f64],
) -> io::Result<()> {
    match case.entry {
        0 => entries::check_chain(out, case),
        1 => entries::forward(out, case, first, lent),
        2 => entries::check_model(out, case),
        3 => entries::link_world(out, case, first, lent),
        4 => entries::link_in_part(out, case, first, lent),
        5 => entries::inverse(out, case, first, second, lent),
        6 => entries::choose(out, case, first, second, lent),
        7 => paths::solve_path(out, case, first, second, lent),
        8 => paths::subdivide_path(out, case, first, second, lent, other),
        9 => paths::solve_and_divide(out, case, first, second, lent, other),
        10 => paths::read_job(out, case),
        11 => paths::job_poses(out, case, lent),
        12 => paths::cable_number(out, case, first),
        13 => functions::sine(out, case),
        14 => functions::cosine(out, case),
        15 => functions::arctangent(out, case),
        16 => functions::arccosine(out, case),
        17 => paths::write_job(out, case, first),
        18 => summaries::build_extremes(out, first, lent),
        19 => summaries::replace_joints(out, case, first, lent, other),
        20 => summaries::first_above(out, case, first, second),
        21 => paths::quote(out, case, first, second, lent, other),
        22 => quotas::grant(out, case),
        23 => quotas::divide_for(out, case, first, second, lent, other),
        24 => entries::choose_tooth(out, case, first, second, lent),
        25 => entries::links_meet(out, case, first),
        26 => paths::subdivide_strict(out, case, first, second, lent, other),
        27 => paths::quote_strict(out, case, first, second, lent, other),
        28 => cells::admit(out, case, first, second, lent, other),
        29 => cells::next(out, case),
        30 => cells::turn(out, case, lent, other),
        31 => cells::count(out, case),
        _ => writeln!(out, "unknown"),
    }
}
