// Numbers in lent bytes, the lowest byte first. A nan of any pattern is read as the one nan.
ghost use Rattle.std.specs.Prelude.{◌+◌, ◌≤◌, ◌≡◌, length};
ghost use Rattle.std.specs.Float.{binary64};
ghost use Rattle.std.specs.Float.Ieee.{of_bits};
ghost use Rattle.chain.specs.Bytes as S;

use geometry::Vec3;

// 0 past the end.
pub fn byte_at(bytes: &[u8], at: usize) -> u8
    ensures { result ≡ S.byte_at bytes.now at }
{
    bytes.get(at).copied().unwrap_or(0)
}

// Bytes past the end count as 0, so it is not by `first_chunk`, which is None where one byte is left.
pub fn u16_at(bytes: &[u8], at: usize) -> u16
    ensures { result ≡ S.little_endian 2 bytes.now at }
{
    if at < bytes.len() {
        return u16::from_le_bytes([bytes[at], byte_at(bytes, at + 1)]);
    }
    0
}

pub fn word_at(bytes: &[u8], at: usize) -> u64
    requires { at + 8 ≤ length bytes.now }
    ensures { result ≡ S.little_endian 8 bytes.now at }
{
    u64::from_le_bytes(*bytes[at..at + 8].first_chunk().unwrap())
}

// The float of a bit pattern.
pub fn number_of(bits: u64) -> f64
    ensures { result ≡ of_bits binary64 bits }
{
    std::num::f64_from_bits_with_nan(bits)
}

#[tactic(auto, unfolding(crate::specs::Bytes::number_at))]
pub fn number_at(bytes: &[u8], at: usize) -> f64
    requires { at + 8 ≤ length bytes.now }
    ensures { result ≡ S.number_at bytes.now at }
{
    number_of(word_at(bytes, at))
}

#[tactic(auto, unfolding(crate::specs::Bytes::vector_at))]
pub fn vector_at(bytes: &[u8], at: usize) -> Vec3
    requires { at + 24 ≤ length bytes.now }
    ensures { result ≡ S.vector_at bytes.now at }
{
    let x = number_at(bytes, at);
    let y = number_at(bytes, at + 8);
    let z = number_at(bytes, at + 16);
    Vec3 { x, y, z }
}

// Whether a number that is used only where the byte at `switch` is 1 is so used, or else +0.0 bit for bit.
#[tactic(auto, unfolding(crate::specs::Bytes::spare))]
pub fn spare(bytes: &[u8], switch: usize, at: usize) -> bool
    requires { at + 8 ≤ length bytes.now }
    ensures { result ≡ S.spare bytes.now switch at }
{
    byte_at(bytes, switch) == 1 || word_at(bytes, at) == 0
}
