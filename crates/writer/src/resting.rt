// The kind of a job's records, by the rest angles of its chain; the trailer's word is that of the kind.
ghost use Rattle.std.specs.Prelude.{◌≡◌};
ghost use Rattle.job.specs.JobBytes.{bytes_in};
ghost use Rattle.writer.specs.Writing as S;

use chain::Kinematics;
use job::RecordKind;

// By its bits: -0.0 is not +0.0, and must come back.
#[tactic(auto, unfolding(crate::specs::Writing::rest_nought))]
fn rest_nought(rest: f64) -> bool
    ensures { result ≡ S.rest_nought rest }
{
    job::bits_of(rest) == 0
}

#[tactic(auto, unfolding(crate::specs::Writing::second_nought))]
fn second_nought(k: &Kinematics) -> bool
    ensures { result ≡ S.second_nought k.now }
{
    k.second_rotary().is_none_or(|j| rest_nought(j.rest))
}

// Without a rest angle where every one of the chain is +0.0.
#[tactic(auto, unfolding(crate::specs::Writing::record_of, crate::specs::Writing::word_of, job::specs::JobBytes::word_length, job::specs::JobBytes::bytes_in))]
pub fn kind_of(k: &Kinematics) -> RecordKind
    ensures { bytes_in result ≡ S.record_of k.now }
{
    if rest_nought(k.first.rest) && second_nought(k) {
        RecordKind::NoRest
    } else {
        RecordKind::WithRest
    }
}
