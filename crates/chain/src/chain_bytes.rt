// A chain from its bytes: the encoding that a job file and a caller of the library share. A breach is 29 with its
// offset; count and letters are handed on for the chain check.
ghost use Rattle.std.specs.Prelude.{◌+◌, ◌≤◌, ◌≡◌, true, false, not, eqb, length, position, MatchOption, IfErr};
ghost use Rattle.chain.specs.Bytes.{vector_at};
ghost use Rattle.chain.specs.ChainBytes as S;

use crate::bytes_at::{byte_at, number_at, spare, vector_at};
use crate::checks::{demand, one_or_two};
use crate::{Carrier, ChainBytes, Kinematics, RotaryJoint, RotaryLimits};
use geometry::Vec3;
use refusal::{Cause, Refusal};

fn first_nonzero(bytes: &[u8]) -> Option<usize>
    ensures { result ≡ position (λ byte. not (eqb byte 0)) bytes.now }
{
    bytes.iter().position(|byte| *byte != 0)
}

// The first of n bytes that is not zero is refused.
pub fn zeros(bytes: &[u8], at: usize, n: usize) -> Result<(), Refusal>
    requires { at + n ≤ length bytes.now }
    ensures { result ≡ S.zeros bytes.now at n }
{
    match first_nonzero(&bytes[at..at + n]) {
        None => Ok(()),
        Some(i) => Err(Refusal::new(Cause::Malformed, (at + i) as u64)),
    }
}

// 0 or 1.
#[tactic(auto, unfolding(crate::specs::ChainBytes::flag))]
pub fn flag(bytes: &[u8], at: usize) -> bool
    ensures { result ≡ S.flag bytes.now at }
{
    byte_at(bytes, at) < 2
}

// Records are read by an offset and not as a value of their own with its bound: of the readers here and in ready_chain
// three go by the 72 bytes of either kind and three by all w, so that there would be two structs, and
// `Record { bytes, at }.travel()` is no plainer than `travel_at(bytes, at)`.
// What the bytes of a rotary's record must be, the letter aside.
#[tactic(auto, unfolding(crate::specs::ChainBytes::rotary_fields))]
pub fn rotary_fields(bytes: &[u8], at: usize) -> Result<(), Refusal>
    requires { at + 72 ≤ length bytes.now }
    ensures { result ≡ S.rotary_fields bytes.now at }
{
    demand(flag(bytes, at + 1), Cause::Malformed, (at + 1) as u64)?;
    demand(flag(bytes, at + 2), Cause::Malformed, (at + 2) as u64)?;
    zeros(bytes, at + 3, 5)?;
    demand(
        spare(bytes, at + 2, at + 56),
        Cause::Malformed,
        (at + 56) as u64,
    )?;
    demand(
        spare(bytes, at + 2, at + 64),
        Cause::Malformed,
        (at + 64) as u64,
    )
}

// No `From<u8>`: not every byte is a carrier, and `Carrier::from(byte)` would read so. What is neither 0 nor 1 is
// refused by `rotary_fields`, and is a head here.
#[tactic(auto, unfolding(crate::specs::ChainBytes::carrier_of))]
pub fn carrier_of(byte: u8) -> Carrier
    ensures { result ≡ S.carrier_of byte }
{
    if byte == 0 {
        return Carrier::Table;
    }
    Carrier::Head
}

#[tactic(auto, unfolding(crate::specs::ChainBytes::travel_at))]
pub fn travel_at(bytes: &[u8], at: usize) -> Option<RotaryLimits>
    requires { at + 72 ≤ length bytes.now }
    ensures { result ≡ S.travel_at bytes.now at }
{
    (byte_at(bytes, at + 2) != 0).then(|| RotaryLimits {
        min: number_at(bytes, at + 56),
        max: number_at(bytes, at + 64),
    })
}

// The rest angle in a record of w bytes, +0.0 where it has none.
#[tactic(auto, unfolding(crate::specs::ChainBytes::rest_at))]
pub fn rest_at(w: usize, bytes: &[u8], at: usize) -> f64
    requires { at + w ≤ length bytes.now }
    ensures { result ≡ S.rest_at w bytes.now at }
{
    if w == 80 {
        return number_at(bytes, at + 72);
    }
    0.0
}

// The rotary whose record of w bytes starts there.
#[tactic(auto, unfolding(crate::specs::ChainBytes::rotary_at))]
pub fn rotary_at(w: usize, bytes: &[u8], at: usize) -> RotaryJoint
    requires { (72 ≤ w) × (at + w ≤ length bytes.now) }
    ensures { result ≡ S.rotary_at w bytes.now at }
{
    let letter = byte_at(bytes, at);
    let carrier = carrier_of(byte_at(bytes, at + 1));
    let limits = travel_at(bytes, at);
    let axis = vector_at(bytes, at + 8);
    let pivot = vector_at(bytes, at + 32);
    let rest = rest_at(w, bytes, at);
    RotaryJoint {
        letter,
        carrier,
        limits,
        axis,
        pivot,
        rest,
    }
}

// What stands for a rotary that is not there.
#[tactic(auto, unfolding(crate::specs::ChainBytes::no_rotary))]
pub fn no_rotary() -> RotaryJoint
    ensures { result ≡ S.no_rotary }
{
    RotaryJoint::default()
}

// A chain of that count and nothing else, for the chain check to refuse.
#[tactic(auto, unfolding(crate::specs::ChainBytes::no_chain, crate::specs::ChainBytes::no_rotary))]
fn no_chain(count: u8) -> Kinematics
    ensures { result ≡ S.no_chain count }
{
    Kinematics {
        count,
        ..Kinematics::default()
    }
}

impl ChainBytes<'_> {
    // Where the record of the second rotary starts, if there is one.
    pub fn second(self) -> Option<usize>
        ensures { MatchOption result (eqb self.entry.count 2 ≡ false) (λ at. (eqb self.entry.count 2 ≡ true) × (at ≡ 8 + self.entry.w) × (at + self.entry.w ≤ length self.entry.bytes.now)) }
    {
        (self.count == 2).then(|| 8 + self.w)
    }

    #[tactic(auto, unfolding(crate::specs::ChainBytes::second_fields))]
    fn second_fields(self) -> Result<(), Refusal>
        ensures { result ≡ S.second_fields self.entry.w self.entry.bytes.now self.entry.count }
    {
        self.second()
            .map_or(Ok(()), |at| rotary_fields(self.bytes, at))
    }

    #[tactic(auto, unfolding(crate::specs::ChainBytes::second_at))]
    fn second_at(self) -> RotaryJoint
        ensures { result ≡ S.second_at self.entry.w self.entry.bytes.now self.entry.count }
    {
        self.second()
            .map_or(no_rotary(), |at| rotary_at(self.w, self.bytes, at))
    }

    // What the bytes must be.
    #[tactic(auto, unfolding(crate::specs::ChainBytes::chain_fields))]
    fn chain_fields(self) -> Result<(), Refusal>
        ensures { result ≡ S.chain_fields self.entry.w self.entry.bytes.now self.entry.count }
    {
        zeros(self.bytes, 1, 7)?;
        rotary_fields(self.bytes, 8)?;
        self.second_fields()
    }

    pub fn spindle_axis(self) -> Vec3
        ensures { result ≡ vector_at self.entry.bytes.now (S.spindle_field self.entry.w self.entry.count) }
    {
        vector_at(self.bytes, 8 + self.w * self.count as usize)
    }

    // Field by field, since the whole chain would be copied into its place.
    #[tactic(auto, unfolding(crate::specs::ChainBytes::chain_at))]
    fn put_chain_at(self, k: &mut Kinematics)
        ensures { k.new ≡ S.chain_at self.entry.w self.entry.bytes.now self.entry.count }
    {
        k.count = self.count;
        k.first = rotary_at(self.w, self.bytes, 8);
        k.second = self.second_at();
        k.spindle_axis = self.spindle_axis();
    }
}

// How long a record is, by the length of the chain.
#[tactic(auto, unfolding(crate::specs::ChainBytes::record_length))]
pub fn record_length(length: usize, count: u8) -> usize
    ensures length { result ≡ S.record_length length count }
    ensures least { 72 ≤ result }
    ensures most { result ≤ 80 }
{
    if length == 32 + 80 * count as usize {
        80
    } else {
        72
    }
}

// The chain of that count with records of w bytes, or the first breach of its bytes.
#[tactic(auto, unfolding(crate::specs::ChainBytes::read_count))]
fn read_count(w: usize, bytes: &[u8], count: u8, k: &mut Kinematics) -> Result<(), Refusal>
    requires { (72 ≤ w) × (w ≤ 80) }
    ensures chain { S.chain_unless result k.new ≡ S.read_count w bytes.now count }
    ensures kept { IfErr result (λ r. k.new ≡ k.old) }
{
    if !one_or_two(count) {
        *k = no_chain(count);
        return Ok(());
    }
    demand(bytes.len() == 32 + w * count as usize, Cause::Malformed, 0)?;
    let chain = ChainBytes { bytes, w, count };
    chain.chain_fields()?;
    chain.put_chain_at(k);
    Ok(())
}

// The chain in a place that is lent, or the first breach of its bytes, which keeps the place. By value its 208 bytes are
// copied from call to call.
#[tactic(auto, unfolding(crate::specs::ChainBytes::read_chain, crate::specs::ChainBytes::read_counted))]
pub fn read_chain_into(bytes: &[u8], k: &mut Kinematics) -> Result<(), Refusal>
    ensures chain { S.chain_unless result k.new ≡ S.read_chain bytes.now }
    ensures kept { IfErr result (λ r. k.new ≡ k.old) }
{
    demand(!bytes.is_empty(), Cause::Malformed, 0)?;
    let count = byte_at(bytes, 0);
    let w = record_length(bytes.len(), count);
    read_count(w, bytes, count, k)
}

// The same by value.
pub fn read_chain(bytes: &[u8]) -> Result<Kinematics, Refusal>
    ensures { result ≡ S.read_chain bytes.now }
{
    let mut k = Kinematics::default();
    read_chain_into(bytes, &mut k)?;
    Ok(k)
}
