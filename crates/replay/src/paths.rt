// The entries of paths, of division, of quotations, of jobs and of the cable number. A job that is read stands where
// another case has its chain.
use crate::cases;
use crate::cases::Case;
use crate::told::{Numbers, called};
use arrayvec::ArrayVec;
use std::io;
use std::io::Write;

pub fn solve_path<W: Write>(
    out: &mut W,
    case: &Case,
    poses: &[f64],
    start: &[f64],
    joints: &mut [f64],
) -> io::Result<()> {
    called(out, "solve_path", |at, letter| {
        maztubel::maztubel_solve_path(
            case.chain_or_job,
            poses,
            start,
            case.single(0),
            joints,
            at,
            letter,
        )
    })?;
    writeln!(out, "{}", Numbers(joints))
}

pub fn subdivide_path<W: Write>(
    out: &mut W,
    case: &Case,
    poses: &[f64],
    joints: &[f64],
    out_poses: &mut [f64],
    out_joints: &mut [f64],
) -> io::Result<()> {
    let mut inserted: u64 = 7;
    called(out, "subdivide_path", |at, letter| {
        maztubel::maztubel_subdivide_path(
            case.chain_or_job,
            poses,
            joints,
            case.single(0),
            case.single(1),
            out_poses,
            out_joints,
            &mut inserted,
            at,
            letter,
        )
    })?;
    writeln!(
        out,
        " {inserted}{}{}",
        Numbers(out_poses),
        Numbers(out_joints)
    )
}

pub fn subdivide_strict<W: Write>(
    out: &mut W,
    case: &Case,
    poses: &[f64],
    joints: &[f64],
    out_poses: &mut [f64],
    out_joints: &mut [f64],
) -> io::Result<()> {
    let mut inserted: u64 = 7;
    called(out, "subdivide_strict", |at, letter| {
        maztubel::maztubel_subdivide_strict(
            case.chain_or_job,
            poses,
            joints,
            case.single(0),
            case.single(1),
            out_poses,
            out_joints,
            &mut inserted,
            at,
            letter,
        )
    })?;
    writeln!(
        out,
        " {inserted}{}{}",
        Numbers(out_poses),
        Numbers(out_joints)
    )
}

pub fn solve_and_divide<W: Write>(
    out: &mut W,
    case: &Case,
    poses: &[f64],
    start: &[f64],
    out_poses: &mut [f64],
    out_joints: &mut [f64],
) -> io::Result<()> {
    let mut inserted: u64 = 7;
    called(out, "solve_and_divide", |at, letter| {
        maztubel::maztubel_solve_and_divide(
            case.chain_or_job,
            poses,
            start,
            case.single(0),
            case.single(1),
            case.single(2),
            out_poses,
            out_joints,
            &mut inserted,
            at,
            letter,
        )
    })?;
    writeln!(
        out,
        " {inserted}{}{}",
        Numbers(out_poses),
        Numbers(out_joints)
    )
}

pub fn quote<W: Write>(
    out: &mut W,
    case: &Case,
    poses: &[f64],
    joints: &[f64],
    scratch_joints: &mut [f64],
    scratch_tips: &mut [f64],
) -> io::Result<()> {
    let mut inserted: u64 = 7;
    let mut poses_out: u64 = 7;
    let mut evaluations: u64 = 7;
    called(out, "quote", |at, letter| {
        maztubel::maztubel_quote(
            case.chain_or_job,
            poses,
            joints,
            case.single(0),
            case.single(1),
            scratch_joints,
            scratch_tips,
            &mut inserted,
            &mut poses_out,
            &mut evaluations,
            at,
            letter,
        )
    })?;
    writeln!(
        out,
        " {inserted} {poses_out} {evaluations}{}{}",
        Numbers(scratch_joints),
        Numbers(scratch_tips)
    )
}

pub fn quote_strict<W: Write>(
    out: &mut W,
    case: &Case,
    poses: &[f64],
    joints: &[f64],
    scratch_joints: &mut [f64],
    scratch_tips: &mut [f64],
) -> io::Result<()> {
    let mut inserted: u64 = 7;
    let mut poses_out: u64 = 7;
    let mut evaluations: u64 = 7;
    called(out, "quote_strict", |at, letter| {
        maztubel::maztubel_quote_strict(
            case.chain_or_job,
            poses,
            joints,
            case.single(0),
            case.single(1),
            scratch_joints,
            scratch_tips,
            &mut inserted,
            &mut poses_out,
            &mut evaluations,
            at,
            letter,
        )
    })?;
    writeln!(
        out,
        " {inserted} {poses_out} {evaluations}{}{}",
        Numbers(scratch_joints),
        Numbers(scratch_tips)
    )
}

pub fn read_job<W: Write>(out: &mut W, case: &Case) -> io::Result<()> {
    let mut chain_at: u64 = 7;
    let mut chain_length: u64 = 7;
    let mut poses_at: u64 = 7;
    let mut count: u64 = 7;
    let mut cone: f64 = 7.25;
    let mut chord: f64 = 7.25;
    let mut axis: f64 = 7.25;
    let mut at: u64 = 7;
    let number = maztubel::maztubel_read_job(
        case.chain_or_job,
        &mut chain_at,
        &mut chain_length,
        &mut poses_at,
        &mut count,
        &mut cone,
        &mut chord,
        &mut axis,
        &mut at,
    );
    write!(out, "read_job {number} {at} 0")?;
    write!(out, " {chain_at} {chain_length} {poses_at} {count}")?;
    writeln!(out, "{}", Numbers(&[cone, chord, axis]))
}

pub fn job_poses<W: Write>(out: &mut W, case: &Case, poses: &mut [f64]) -> io::Result<()> {
    let mut at: u64 = 7;
    let number = maztubel::maztubel_job_poses(case.chain_or_job, poses, &mut at);
    writeln!(out, "job_poses {number} {at} 0{}", Numbers(poses))
}

pub fn cable_number<W: Write>(out: &mut W, case: &Case, joints: &[f64]) -> io::Result<()> {
    let mut turns: u64 = 7;
    called(out, "cable_number", |at, letter| {
        maztubel::maztubel_cable_number(
            case.chain_or_job,
            joints,
            case.which as u64,
            &mut turns,
            at,
            letter,
        )
    })?;
    writeln!(out, " {turns}")
}

pub fn write_job<W: Write>(out: &mut W, case: &Case, poses: &[f64]) -> io::Result<()> {
    let mut job = [7u8; 1024];
    write_into(out, case, poses, cases::lent(&mut job, case.which as usize))
}

// The bytes that are lent stand as numbers, eight bytes each.
fn write_into<W: Write>(out: &mut W, case: &Case, poses: &[f64], job: &mut [u8]) -> io::Result<()> {
    let mut length: u64 = 7;
    called(out, "write_job", |at, letter| {
        maztubel::maztubel_write_job(
            case.chain_or_job,
            poses,
            case.single(0),
            case.single(1),
            case.single(2),
            job,
            &mut length,
            at,
            letter,
        )
    })?;
    let numbers: ArrayVec<f64, 128> = cases::read_each(cases::in_words(job), cases::number);
    writeln!(out, " {length}{}", Numbers(&numbers))
}
