// The entries of chains, of models and of the inverse map.
use crate::cases::Case;
use crate::told::{Numbers, called};
use std::io;
use std::io::Write;

pub fn check_chain<W: Write>(out: &mut W, case: &Case) -> io::Result<()> {
    called(out, "check_chain", |at, letter| {
        maztubel::maztubel_check_chain(case.chain_or_job, at, letter)
    })?;
    writeln!(out)
}

pub fn forward<W: Write>(
    out: &mut W,
    case: &Case,
    joints: &[f64],
    pose: &mut [f64],
) -> io::Result<()> {
    called(out, "forward", |at, letter| {
        maztubel::maztubel_forward(case.chain_or_job, joints, case.single(0), pose, at, letter)
    })?;
    writeln!(out, "{}", Numbers(pose))
}

pub fn check_model<W: Write>(out: &mut W, case: &Case) -> io::Result<()> {
    called(out, "check_model", |at, letter| {
        maztubel::maztubel_check_model(case.name, case.chain_or_job, case.model, at, letter)
    })?;
    writeln!(out)
}

// Not one function with the entry as its parameter. That was tried: the check looks for the entry's contract in the
// module that maztubel keeps to itself, and finds no such file; a closure around the entry is this call written out.
pub fn link_world<W: Write>(
    out: &mut W,
    case: &Case,
    joints: &[f64],
    frame: &mut [f64],
) -> io::Result<()> {
    called(out, "link_world", |at, letter| {
        maztubel::maztubel_link_world(
            case.name,
            case.chain_or_job,
            case.model,
            joints,
            case.carrier,
            frame,
            at,
            letter,
        )
    })?;
    writeln!(out, "{}", Numbers(frame))
}

pub fn link_in_part<W: Write>(
    out: &mut W,
    case: &Case,
    joints: &[f64],
    frame: &mut [f64],
) -> io::Result<()> {
    called(out, "link_in_part", |at, letter| {
        maztubel::maztubel_link_in_part(
            case.name,
            case.chain_or_job,
            case.model,
            joints,
            case.carrier,
            frame,
            at,
            letter,
        )
    })?;
    writeln!(out, "{}", Numbers(frame))
}

pub fn links_meet<W: Write>(out: &mut W, case: &Case, joints: &[f64]) -> io::Result<()> {
    let mut found: u64 = 7;
    let mut pose: u64 = 7;
    let mut first: u64 = 7;
    let mut second: u64 = 7;
    called(out, "links_meet", |at, letter| {
        maztubel::maztubel_links_meet(
            case.name,
            case.chain_or_job,
            case.model,
            joints,
            &mut found,
            &mut pose,
            &mut first,
            &mut second,
            at,
            letter,
        )
    })?;
    writeln!(out, " {found} {pose} {first} {second}")
}

pub fn inverse<W: Write>(
    out: &mut W,
    case: &Case,
    pose: &[f64],
    hint: &[f64],
    list: &mut [f64],
) -> io::Result<()> {
    let mut count: u64 = 7;
    called(out, "inverse", |at, letter| {
        maztubel::maztubel_inverse(
            case.chain_or_job,
            pose,
            case.single(0),
            hint,
            list,
            &mut count,
            at,
            letter,
        )
    })?;
    writeln!(out, " {count}{}", Numbers(list))
}

pub fn choose<W: Write>(
    out: &mut W,
    case: &Case,
    pose: &[f64],
    hint: &[f64],
    joints: &mut [f64],
) -> io::Result<()> {
    called(out, "choose", |at, letter| {
        maztubel::maztubel_choose(
            case.chain_or_job,
            pose,
            case.single(0),
            case.which as u32,
            hint,
            joints,
            at,
            letter,
        )
    })?;
    writeln!(out, "{}", Numbers(joints))
}

pub fn choose_tooth<W: Write>(
    out: &mut W,
    case: &Case,
    pose: &[f64],
    hint: &[f64],
    joints: &mut [f64],
) -> io::Result<()> {
    called(out, "choose_tooth", |at, letter| {
        maztubel::maztubel_choose_tooth(
            case.chain_or_job,
            pose,
            case.single(0),
            case.which as u32,
            hint,
            case.single(1),
            joints,
            at,
            letter,
        )
    })?;
    writeln!(out, "{}", Numbers(joints))
}
