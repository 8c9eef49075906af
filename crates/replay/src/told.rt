// The line of a case.
ghost use Rattle.std.specs.Prelude.{◌≤◌};

use crate::cases::Case;
use std::io::Write;
use std::{fmt, io};
use text::Float;

// Calls an entry, with the place and the letter at 7, and begins the line with what it hands back.
pub fn called<W: Write, F: FnOnce(&mut u64, &mut u8) -> u32>(
    out: &mut W,
    entry: &str,
    call: F,
) -> io::Result<()>
    requires { F.IsAlwaysCallable call }
{
    let mut at: u64 = 7;
    let mut letter: u8 = 7;
    let number = call(&mut at, &mut letter);
    write!(out, "{entry} {number} {at} {letter}")
}

// Calls one of the four functions with a number of the case, by its index, and judges the answer by totalOrder: the
// least and the greatest stand behind that number.
pub fn judge<W: Write, F: FnOnce(f64, &mut f64) -> u32>(
    out: &mut W,
    case: &Case,
    index: usize,
    entry: &str,
    call: F,
) -> io::Result<()>
    requires callable { F.IsAlwaysCallable call }
    requires early { index ≤ 1 }
{
    let mut answer: f64 = 7.25;
    let number = call(case.single(index), &mut answer);
    let least = case.single(index + 1);
    let greatest = case.single(index + 2);
    if float::precedes(answer, least) || float::precedes(greatest, answer) {
        writeln!(out, "{entry} {number} outside {}", Float(answer))
    } else {
        writeln!(out, "{entry} {number} within")
    }
}

// Lent numbers behind a colon, 16 hexadecimal digits each, up to the last that differs from the one behind it; that one
// stands with how often it does.
#[derive(Clone, Copy)]
pub struct Numbers<'a>(pub &'a [f64]);

impl fmt::Display for Numbers<'_> {
    fn fmt<W: fmt::Write>(&self, f: &mut fmt::Formatter<W>) -> fmt::Result {
        let xs = self.0;
        write!(f, " :")?;
        let Some(last) = xs.last() else {
            return Ok(());
        };
        let run = xs.iter().rev().take_while(|x| same(**x, *last)).count();
        for x in &xs[..xs.len() - run] {
            write!(f, " {}", Float(*x))?;
        }
        write!(f, " {}*{run}", Float(*last))
    }
}

fn same(x: f64, y: f64) -> bool {
    float::total_cmp(x, y).is_eq()
}

// Lent whole numbers behind a colon, in decimals.
#[derive(Clone, Copy)]
pub struct WholeNumbers<'a>(pub &'a [u64]);

impl fmt::Display for WholeNumbers<'_> {
    fn fmt<W: fmt::Write>(&self, f: &mut fmt::Formatter<W>) -> fmt::Result {
        let xs = self.0;
        write!(f, " :")?;
        for x in xs {
            write!(f, " {x}")?;
        }
        Ok(())
    }
}
