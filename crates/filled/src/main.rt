// Divides two neighbouring pairs of a path one after the other, with one record lent for each, and writes what comes of
// it: how many poses were inserted so far, and the numbers of the poses and of the joint sets in the outputs, with the
// +0.0 behind them.
//
// What it must write, `stdout`, was computed by the Rust with this library's turns. To make it again, in oracle/:
//     cargo run --release --bin filled > ../crates/filled/stdout
#![tactic(auto)]

ghost use Rattle.std.specs.Prelude.{◌≡◌};
ghost use Rattle.machine.specs.Filling.{filling, after};

use chain::{Carrier, Joints, Prepared, Spin};
use geometry::Vec3;
use machine::Subdiv;
use middle::{Item, Tolerances};
use std::io;
use std::io::Write;
use text::{Float, Hexadecimal};

fn main(rt: HostRuntime) -> io::Result<()> {
    let mut out = rt.stdout();
    let p = machine();
    let job = Subdiv {
        inserted: 0,
        tol: Tolerances {
            chord: 0.05,
            axis: 4.0,
            strict: false,
        },
    };
    let first = item(p, 0.0);
    let second = item(p, 40.0);
    let third = item(p, 100.0);
    let job = one_pair(&mut out, job, p, first, second)?;
    one_pair(&mut out, job, p, second, third)?;
    out.flush()
}

// A table that turns about y, and the spindle along z.
fn machine() -> Prepared {
    let zero = Vec3::default();
    let first = Spin {
        carrier: Carrier::Table,
        axis: Vec3 { y: 1.0, ..zero },
        pivot: zero,
    };
    Prepared {
        first,
        second: None,
        spindle: Vec3 { z: 1.0, ..zero },
    }
}

// A point off the table's axis, at an angle, with the pose that is reached there.
fn item(p: Prepared, angle: f64) -> Item {
    let xyz = Vec3 {
        x: 20.0,
        y: 5.0,
        z: 10.0,
    };
    let joints = Joints {
        xyz,
        a0: angle,
        ..Joints::default()
    };
    let pose = middle::pose_of(p, joints);
    Item { pose, joints }
}

fn one_pair<W: Write>(
    out: &mut W,
    job: Subdiv,
    p: Prepared,
    left: Item,
    right: Item,
) -> io::Result<Subdiv> {
    let mut poses = [[0.0f64; 6]; 24];
    let mut joints = [[0.0f64; 5]; 24];
    let after = filled(
        job,
        p,
        left,
        right,
        poses.as_flattened_mut(),
        joints.as_flattened_mut(),
    );
    writeln!(out, "inserted {}", Hexadecimal(after.inserted))?;
    write_rows(out, &poses)?;
    write_rows(out, &joints)?;
    Ok(after)
}

// The record is lent, and comes back with the new count, on a refusal too: so the answer itself is not looked at.
fn filled(
    mut job: Subdiv,
    p: Prepared,
    left: Item,
    right: Item,
    poses: &mut [f64],
    joints: &mut [f64],
) -> Subdiv
    ensures { result ≡ after job (filling job p left right poses.old joints.old) }
{
    let _ = machine::fill(&mut job, p, left, right, poses, joints);
    job
}

// A line for each row.
fn write_rows<W: Write, const N: usize>(out: &mut W, rows: &[[f64; N]]) -> io::Result<()> {
    for row in rows {
        for x in row {
            write!(out, " {}", Float(*x))?;
        }
        writeln!(out)?;
    }
    Ok(())
}
