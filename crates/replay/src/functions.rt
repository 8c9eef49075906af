// Sine, cosine, arctangent and arccosine. A case has the least and the greatest answer that document 01 allows; a
// refusal is to keep 7.25, which is then both.
use crate::cases::Case;
use crate::told::judge;
use maztubel::{maztubel_arccosine, maztubel_arctangent, maztubel_cosine, maztubel_sine};
use std::io;
use std::io::Write;

pub fn sine<W: Write>(out: &mut W, case: &Case) -> io::Result<()> {
    judge(out, case, 0, "sine", maztubel_sine)
}

pub fn cosine<W: Write>(out: &mut W, case: &Case) -> io::Result<()> {
    judge(out, case, 0, "cosine", maztubel_cosine)
}

pub fn arccosine<W: Write>(out: &mut W, case: &Case) -> io::Result<()> {
    judge(out, case, 0, "arccosine", maztubel_arccosine)
}

pub fn arctangent<W: Write>(out: &mut W, case: &Case) -> io::Result<()> {
    let y = case.single(0);
    let of_x = |x: f64, answer: &mut f64| maztubel_arctangent(y, x, answer);
    judge(out, case, 1, "arctangent", of_x)
}
