// Where the parts of a job lie: the trailer, and whether chain and poses are inside the bytes before it and apart.
// Offsets are 32 bits in the file and summed in 64.
ghost use Rattle.std.specs.Prelude.{◌≡◌, ◌+◌, ◌≤◌, true, length};
ghost use Rattle.chain.specs.Bytes.{little_endian};
ghost use Rattle.chain.specs.ChainBytes.{length_of_chain};
ghost use Rattle.job.specs.JobBytes as S;

use crate::{Places, RecordKind};
use chain::{demand, one_or_two};
use refusal::{Cause, Refusal};

// As `word_at` of crate chain; no generic of both, since `from_le_bytes` is each type's own.
fn u32_at(bytes: &[u8], at: usize) -> u32
    requires { at + 4 ≤ length bytes.now }
    ensures { result ≡ little_endian 4 bytes.now at }
{
    u32::from_le_bytes(*bytes[at..at + 4].first_chunk().unwrap())
}

#[tactic(auto, unfolding(crate::specs::JobBytes::sized))]
pub fn sized(length: usize) -> bool
    ensures { result ≡ S.sized length }
{
    matches!(length, 40..=65536)
}

impl RecordKind {
    // No `TryFrom`: every word but 1 counts as no rest angle, and of those the ones that are not 0 are refused later.
    // No `From<u32>` either: not every word is a kind, and `RecordKind::from(word)` would read so.
    #[tactic(auto, unfolding(crate::specs::JobBytes::bytes_in, crate::specs::JobBytes::word_length))]
    pub fn of_word(word: u32) -> RecordKind
        ensures { S.bytes_in result ≡ S.word_length word }
    {
        if word == 1 {
            RecordKind::WithRest
        } else {
            RecordKind::NoRest
        }
    }

    // The trailer's word for it.
    #[tactic(auto, unfolding(crate::specs::JobBytes::word_in))]
    pub fn word(self) -> u32
        ensures { result ≡ S.word_in self }
    {
        match self {
            RecordKind::NoRest => 0,
            RecordKind::WithRest => 1,
        }
    }

    // Crate chain's `rotary_at` takes this number and no kind: it is public, and promised of every length from 72 on.
    #[tactic(auto, unfolding(crate::specs::JobBytes::bytes_in))]
    pub fn bytes(self) -> usize
        ensures { result ≡ S.bytes_in self }
    {
        match self {
            RecordKind::NoRest => 72,
            RecordKind::WithRest => 80,
        }
    }

    // How long a chain with such records is.
    #[tactic(auto, using(chain::proofs::Bytes::product_most, crate::proofs::RecordLengths::kind_most))]
    pub fn chain_length(self, count: u8) -> usize
        ensures { result ≡ length_of_chain (S.bytes_in self) count }
    {
        32 + self.bytes() * count as usize
    }
}

impl Places {
    // The kind of the rotaries' records, by the word.
    pub(crate) fn kind(self) -> RecordKind
        ensures { S.bytes_in result ≡ S.word_length self.word }
    {
        RecordKind::of_word(self.word)
    }
}

#[tactic(auto, unfolding(crate::specs::JobBytes::chain_end), using(crate::proofs::RecordLengths::chain_most))]
fn chain_end(p: Places, count: u8) -> usize
    ensures { result ≡ S.chain_end (S.word_length p.word) p count }
{
    p.chain as usize + p.kind().chain_length(count)
}

#[tactic(auto, unfolding(crate::specs::JobBytes::poses_end))]
fn poses_end(p: Places) -> usize
    ensures { result ≡ S.poses_end p }
{
    p.poses as usize + 48 * p.count as usize
}

// Chain and poses by where they end. No poses overlap nothing.
#[tactic(auto, unfolding(crate::specs::JobBytes::apart))]
fn apart(p: Places, chain: usize, poses: usize) -> bool
    ensures { result ≡ S.apart p chain poses }
{
    p.count == 0 || poses <= p.chain as usize || chain <= p.poses as usize
}

// Bytes as long as a job may be, with the trailer at their end.
#[derive(Clone, Copy)]
pub struct JobBytes<'a> {
    pub bytes: &'a [u8],
    ghost sized: { S.sized (length bytes.now) ≡ true },
}

impl JobBytes<'_> {
    // Where the trailer starts.
    #[tactic(auto, using(crate::proofs::JobWithin::sized_least))]
    pub fn trailer(self) -> usize
        ensures { result ≡ S.trailer self.entry.bytes.now }
    {
        self.bytes.len() - 40
    }

    #[tactic(auto, using(crate::proofs::JobWithin::sized_least), unfolding(crate::specs::JobBytes::places_in))]
    pub fn places(self) -> Places
        ensures { result ≡ S.places_in self.entry.bytes.now }
    {
        let trailer = self.trailer();
        let chain = u32_at(self.bytes, trailer);
        let poses = u32_at(self.bytes, trailer + 4);
        let count = u32_at(self.bytes, trailer + 8);
        let word = u32_at(self.bytes, trailer + 12);
        Places {
            chain,
            poses,
            count,
            word,
        }
    }

    // What the trailer says must be, in the order of its fields; the count is judged once its byte is inside.
    #[tactic(auto, unfolding(crate::specs::JobBytes::placed))]
    pub fn placed(self, p: Places, count: u8) -> Result<(), Refusal>
        ensures { result ≡ S.placed (S.word_length p.word) self.entry.bytes.now p count }
    {
        let trailer = self.trailer();
        let at = trailer as u64;
        let chain_end = chain_end(p, count);
        let poses_end = poses_end(p);
        demand((p.chain as usize) < trailer, Cause::Malformed, at)?;
        demand(one_or_two(count), Cause::RotaryCount, 0)?;
        demand(chain_end <= trailer, Cause::Malformed, at)?;
        demand(poses_end <= trailer, Cause::Malformed, at + 4)?;
        demand(apart(p, chain_end, poses_end), Cause::Malformed, at + 4)?;
        demand(p.word < 2, Cause::Malformed, at + 12)
    }
}
