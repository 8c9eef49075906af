// Numbers and words as bytes, put into a lent buffer at an offset: what the text of an answer is made of.
ghost use Rattle.std.specs.Prelude.{◌≡◌, ◌+◌, ◌<◌, ◌≤◌, length};
ghost use Rattle.job.specs.Spelling as S;

use std::num::f64_to_bits_with_nan;

// 0 to 9, then A to F.
#[tactic(auto, unfolding(crate::specs::Spelling::digit))]
fn digit(d: u64) -> u8
    requires { d < 16 }
    ensures { result ≡ S.digit d }
{
    if d < 10 {
        b'0' + d as u8
    } else {
        b'A' + (d - 10) as u8
    }
}

// 16 hexadecimal digits.
pub fn hexadecimal(x: u64) -> [u8; 16]
    ensures { result ≡ S.digits 16 16 x }
{
    let mut digits = [0u8; 16];
    for (i, byte) in digits.iter_mut().enumerate() {
        *byte = digit((x >> (60 - 4 * i)) % 16);
    }
    digits
}

// How many decimal digits x has.
pub fn width(x: u64) -> usize
    ensures width { result ≡ S.width x }
    ensures few { result ≤ 20 }
{
    x.checked_ilog10().unwrap_or(0) as usize + 1
}

// The bit pattern; of every nan that of the one nan, though no answer has any.
pub fn bits_of(x: f64) -> u64
    ensures { result ≡ S.bits_of x }
{
    f64_to_bits_with_nan(x)
}

// Bytes, and where the next of a text goes: the text of an answer here, a job in crate writer.
#[derive(Drop)]
pub struct Page<'a> {
    pub out: &'a mut [u8],
    pub at: usize,
}

impl Page<'_> {
    pub fn put(&mut self, text: &[u8])
        requires { S.Fits self.old text.now }
        ensures { S.Put self.old text.now self.new }
    {
        let end = self.at + text.len();
        self.out[self.at..end].copy_from_slice(text);
        self.at = end;
    }
}
