// A job: its bytes, the cable number of a rotary on its path, and the text of its answer. Everything is read from lent
// bytes and numbers; a refusal keeps all that is lent.
#![tactic(auto)]

ghost use Rattle.std.specs.Prelude.{◌≡◌};
ghost use Rattle.job.specs.declared.JobError.TheVariants.{Refused};

mod job_bytes;
mod lending;
mod placing;
mod spelling;
mod telling;
mod winding;

use chain::Kinematics;
pub use job_bytes::read_job;
pub use lending::job_poses;
use middle::Tolerances;
use refusal::Refusal;
pub use spelling::{Page, bits_of};
pub use telling::answer_text;
pub use winding::cable_number;

// What the trailer says: where chain and poses start, counted from the first byte of the file, how many poses there
// are, and a word: 1 where each rotary's record has a rest angle, 0 where none has.
#[derive(Clone, Copy)]
pub struct Places {
    pub chain: u32,
    pub poses: u32,
    pub count: u32,
    pub word: u32,
}

// A rotary's record in the file: of 80 bytes with a rest angle, of 72 without.
#[derive(Clone, Copy)]
pub enum RecordKind {
    NoRest,
    WithRest,
}

// A job without its poses, which stay in the bytes.
#[derive(Clone, Copy)]
pub struct Job {
    pub chain_at: u32,
    pub chain_length: usize,
    pub poses_at: u32,
    pub poses: u32,
    pub cone: f64,
    pub tol: Tolerances,
    pub chain: Kinematics,
}

// What one reading of a path's joint sets finds: whether all are finite, whether all are within the limits of size,
// and the most whole turns of a rotary. No `Option<u64>`: each of the two has a check of its own, and both stand behind
// others in the list.
#[derive(Clone, Copy)]
pub struct Survey {
    pub finite: bool,
    pub within: bool,
    pub turns: u64,
}

// What the first line of a path's text says beside its length: how many poses were inserted, and the cable numbers of
// the two rotaries.
#[derive(Clone, Copy)]
pub struct Figures {
    pub inserted: u64,
    pub first: u64,
    pub second: u64,
}

// Why a job ended without a divided path: with a refusal, which may be one of a pose.
#[derive(Clone, Copy)]
pub enum JobError {
    Refused(Refusal),
    AtPose(Refusal),
}

impl From<Refusal> for JobError {
    ghost from_gives = { λ r e. e ≡ Refused r };

    fn from(r: Refusal) -> JobError {
        JobError::Refused(r)
    }
}
