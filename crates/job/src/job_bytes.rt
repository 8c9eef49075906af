// A job from its bytes: the length, what the trailer says, then the chain in byte order. The chain's records are those
// of the chain's own bytes (chain::rotary_fields, chain::rotary_at), read where the file has them, so that a breach
// has its offset in the file.
ghost use Rattle.std.specs.Prelude.{◌≡◌, ◌+◌, ◌*◌, ◌≤◌, true, false, eqb, length, MatchOption};
ghost use Rattle.chain.specs.ChainBytes.{second_field};
ghost use Rattle.job.specs.JobBytes as S;

use crate::placing::{JobBytes, sized};
use crate::{Job, Places};
use chain::{
    Kinematics, RotaryJoint, byte_at, demand, known_letter, no_rotary, number_at, rotary_at,
    rotary_fields, vector_at, zeros,
};
use middle::Tolerances;
use refusal::{Cause, Refusal};

// A rotary's record: the letter, then the rest in byte order.
#[tactic(auto, unfolding(crate::specs::JobBytes::rotary_part))]
fn rotary_part(bytes: &[u8], at: usize, index: u64) -> Result<(), Refusal>
    requires { at + 72 ≤ length bytes.now }
    ensures { result ≡ S.rotary_part bytes.now at index }
{
    demand(known_letter(byte_at(bytes, at)), Cause::RotaryLetter, index)?;
    rotary_fields(bytes, at)
}

// The chain of a job among the file's bytes, all of it there. Not a `chain::ChainBytes` over a part of them: the
// definitions read a chain and refuse it at the file's own offsets, and judge each rotary's letter before its record.
#[derive(Clone, Copy)]
struct PlacedChain<'a> {
    bytes: &'a [u8],
    places: Places,
    count: u8,
    ghost whole: { (1 ≤ count) × (places.chain + (32 + S.word_length places.word * count) ≤ length bytes.now) },
}

impl PlacedChain<'_> {
    // Where the record of the second rotary starts, if there is one.
    #[tactic(auto, using(crate::proofs::JobBetween::two, crate::proofs::RecordLengths::kind_least))]
    fn second(self) -> Option<usize>
        ensures { MatchOption result (eqb self.entry.count 2 ≡ false) (λ at. (eqb self.entry.count 2 ≡ true) × (at ≡ self.entry.places.chain + second_field (S.word_length self.entry.places.word)) × (at + S.word_length self.entry.places.word ≤ length self.entry.bytes.now)) }
    {
        (self.count == 2).then(|| self.places.chain as usize + (8 + self.places.kind().bytes()))
    }

    #[tactic(auto, using(crate::proofs::JobWithin::word_wide), unfolding(crate::specs::JobBytes::second_part))]
    fn second_part(self) -> Result<(), Refusal>
        ensures { result ≡ S.second_part (S.word_length self.entry.places.word) self.entry.bytes.now self.entry.places self.entry.count }
    {
        self.second()
            .map_or(Ok(()), |at| rotary_part(self.bytes, at, 1))
    }

    // What the bytes must be.
    #[tactic(auto, using(crate::proofs::JobBetween::more, crate::proofs::JobWithin::word_wide), unfolding(crate::specs::JobBytes::chain_part))]
    fn part(self) -> Result<(), Refusal>
        ensures { result ≡ S.chain_part (S.word_length self.entry.places.word) self.entry.bytes.now self.entry.places self.entry.count }
    {
        let at = self.places.chain as usize;
        zeros(self.bytes, at + 1, 7)?;
        rotary_part(self.bytes, at + 8, 0)?;
        self.second_part()
    }

    #[tactic(auto, using(crate::proofs::RecordLengths::kind_least), unfolding(crate::specs::JobBytes::second_in))]
    fn second_in(self) -> RotaryJoint
        ensures { result ≡ S.second_in (S.word_length self.entry.places.word) self.entry.bytes.now self.entry.places self.entry.count }
    {
        self.second().map_or(
            no_rotary(),
            |at| rotary_at(self.places.kind().bytes(), self.bytes, at),
        )
    }

    #[tactic(auto, using(crate::proofs::JobBetween::more, crate::proofs::RecordLengths::kind_least), unfolding(crate::specs::JobBytes::chain_in))]
    fn read(self) -> Kinematics
        ensures { result ≡ S.chain_in (S.word_length self.entry.places.word) self.entry.bytes.now self.entry.places self.entry.count }
    {
        let at = self.places.chain as usize;
        let w = self.places.kind().bytes();
        let first = rotary_at(w, self.bytes, at + 8);
        let second = self.second_in();
        let spindle_axis = vector_at(self.bytes, at + (8 + w * self.count as usize));
        Kinematics {
            count: self.count,
            first,
            second,
            spindle_axis,
        }
    }
}

impl JobBytes<'_> {
    #[tactic(auto, using(crate::proofs::JobWithin::sized_least), unfolding(crate::specs::JobBytes::job_at))]
    fn job_at(self, p: Places, chain: Kinematics) -> Job
        ensures { result ≡ S.job_at (S.word_length p.word) self.entry.bytes.now p chain }
    {
        let trailer = self.trailer();
        let cone = number_at(self.bytes, trailer + 16);
        let chord = number_at(self.bytes, trailer + 24);
        let axis = number_at(self.bytes, trailer + 32);
        Job {
            chain_at: p.chain,
            chain_length: p.kind().chain_length(chain.count),
            poses_at: p.poses,
            poses: p.count,
            cone,
            tol: Tolerances {
                chord,
                axis,
                strict: false,
            },
            chain,
        }
    }

    // With what the trailer says.
    #[tactic(auto, using(crate::proofs::JobWithin::chain_room), unfolding(crate::specs::JobBytes::job_from, crate::specs::JobBytes::job_fields))]
    fn job_from(self, places: Places, count: u8) -> Result<Job, Refusal>
        ensures { result ≡ S.job_from (S.word_length places.word) self.entry.bytes.now places count }
    {
        self.placed(places, count)?;
        let chain = PlacedChain {
            bytes: self.bytes,
            places,
            count,
        };
        chain.part()?;
        Ok(self.job_at(places, chain.read()))
    }
}

// The job, or the first breach of its bytes.
#[tactic(auto, unfolding(crate::specs::JobBytes::read_job, crate::specs::JobBytes::job_from, crate::specs::JobBytes::job_fields))]
pub fn read_job(bytes: &[u8]) -> Result<Job, Refusal>
    ensures { result ≡ S.read_job bytes.now }
{
    demand(sized(bytes.len()), Cause::Malformed, 0)?;
    let job = JobBytes { bytes };
    let p = job.places();
    let count = byte_at(bytes, p.chain as usize);
    job.job_from(p, count)
}
