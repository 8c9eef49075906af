// What programs share: a number as text, in 16 hexadecimal digits in upper case, of a float its bits, or `nan`; and
// reading into room of a fixed size.
#![tactic(auto)]

mod reading;

ghost use Rattle.std.specs.Prelude.{Some};
ghost use Rattle.text.specs.Hexadecimal.{digits, float_digits};

pub use reading::read_full;
use std::fmt;

#[derive(Clone, Copy)]
pub struct Hexadecimal(pub u64);

impl fmt::Display for Hexadecimal {
    ghost output = { λ n. Some (digits 16 n.0) };

    fn fmt<W: fmt::Write>(&self, f: &mut fmt::Formatter<W>) -> fmt::Result {
        let n = self.0;
        write!(f, "{n:016X}")
    }
}

// A float by its bits.
#[derive(Clone, Copy)]
pub struct Float(pub f64);

impl fmt::Display for Float {
    ghost output = { λ x. Some (float_digits x.0) };

    fn fmt<W: fmt::Write>(&self, f: &mut fmt::Formatter<W>) -> fmt::Result {
        let x = self.0;
        if x.is_nan() {
            return write!(f, "nan");
        }
        let bits = Hexadecimal(x.to_bits());
        write!(f, "{bits}")
    }
}
