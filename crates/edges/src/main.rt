// Runs every function of `float` on edge values and writes a line for each call: the function, its arguments, its
// answer. (The order key has no counterpart in Rust: `precedes` shows it.)
//
// What it must write, `stdout`, was computed by Rust's standard library. To make it again, in oracle/:
//     cargo run --release --bin edges > ../crates/edges/stdout
#![tactic(auto)]

use std::cmp::Ordering;
use std::io;
use std::io::Write;
use std::num::f64_from_bits_with_nan;
use text::Float;

mod values;

fn main(rt: HostRuntime) -> io::Result<()> {
    let mut out = rt.stdout();
    for bits in &values::EDGES {
        of_one(&mut out, f64_from_bits_with_nan(*bits))?;
    }
    for first in &values::PAIRED {
        for second in &values::PAIRED {
            let x = f64_from_bits_with_nan(*first);
            let y = f64_from_bits_with_nan(*second);
            of_two(&mut out, x, y)?;
        }
    }
    out.flush()
}

fn of_one<W: Write>(out: &mut W, x: f64) -> io::Result<()> {
    let shown = Float(x);
    writeln!(out, "finite {shown} {}", float::finite(x))?;
    writeln!(out, "size {shown} {}", Float(float::size(x)))?;
    writeln!(out, "round {shown} {}", Float(float::round(x)))?;
    writeln!(out, "clamp_unit {shown} {}", Float(float::clamp_unit(x)))?;
    writeln!(out, "to_radians {shown} {}", Float(float::to_radians(x)))?;
    writeln!(out, "to_degrees {shown} {}", Float(float::to_degrees(x)))?;
    writeln!(out, "root {shown} {}", Float(root::root(x)))
}

fn of_two<W: Write>(out: &mut W, x: f64, y: f64) -> io::Result<()> {
    let first = Float(x);
    let second = Float(y);
    writeln!(
        out,
        "minimum {first} {second} {}",
        Float(float::minimum(x, y))
    )?;
    writeln!(
        out,
        "maximum {first} {second} {}",
        Float(float::maximum(x, y))
    )?;
    writeln!(out, "precedes {first} {second} {}", float::precedes(x, y))?;
    writeln!(
        out,
        "total_cmp {first} {second} {}",
        word(float::total_cmp(x, y))
    )
}

// In lower case, as the file that the output is held to has it.
fn word(c: Ordering) -> &'static str {
    match c {
        Ordering::Less => "less",
        Ordering::Equal => "equal",
        Ordering::Greater => "greater",
    }
}
