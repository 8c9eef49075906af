// The entries of the extremes beside a path. Joints that are replaced, and the summary beside them, hold 7.25 before
// the call, so that the one is the other's own.
use crate::cases::Case;
use crate::told::Numbers;
use std::io;
use std::io::Write;

pub fn build_extremes<W: Write>(
    out: &mut W,
    joints: &[f64],
    summary: &mut [f64],
) -> io::Result<()> {
    let number = maztubel::maztubel_build_extremes(joints, summary);
    writeln!(out, "build_extremes {number} 0 0{}", Numbers(summary))
}

pub fn replace_joints<W: Write>(
    out: &mut W,
    case: &Case,
    fresh: &[f64],
    joints: &mut [f64],
    summary: &mut [f64],
) -> io::Result<()> {
    let index = case.which as u64;
    let number = maztubel::maztubel_replace_joints(joints, summary, index, fresh);
    write!(out, "replace_joints {number} 0 0")?;
    writeln!(out, "{}{}", Numbers(joints), Numbers(summary))
}

pub fn first_above<W: Write>(
    out: &mut W,
    case: &Case,
    joints: &[f64],
    summary: &[f64],
) -> io::Result<()> {
    let rotary = case.which as u64;
    let mut found: u64 = 7;
    let mut index: u64 = 7;
    let number = maztubel::maztubel_first_above(
        joints,
        summary,
        rotary,
        case.single(0),
        &mut found,
        &mut index,
    );
    writeln!(out, "first_above {number} 0 0 {found} {index}")
}
