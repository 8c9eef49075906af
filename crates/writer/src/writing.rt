// The parts of a job, one behind the other on a page.
ghost use Rattle.std.specs.Prelude.{◌≤◌, ◌≡◌, true, length};
ghost use Rattle.chain.specs.Check.{one_or_two};
ghost use Rattle.job.specs.JobBytes.{bytes_in};
ghost use Rattle.job.specs.Spelling.{Fits, Put, written};
ghost use Rattle.writer.specs.Checking.{length_of};
ghost use Rattle.writer.specs.Writing as S;

use crate::resting::kind_of;
use chain::{Carrier, Kinematics, RotaryJoint, RotaryLimits};
use geometry::Vec3;
use job::{Page, RecordKind};
use middle::Tolerances;

// ---- numbers
// The lowest four bytes of a whole number, the lowest first. Not of a `u32`: `put_job` asks no bound of how many poses
// there are, so that the cut would only move to `count as u32`, and would have to be shown to keep the bytes.
fn put_four(page: &mut Page<'_>, x: u64)
    requires { Fits page.old (S.bytes_of 4 x) }
    ensures { Put page.old (S.bytes_of 4 x) page.new }
{
    page.put(&x.to_le_bytes()[..4]);
}

fn put_number(page: &mut Page<'_>, x: f64)
    requires { Fits page.old (S.number_bytes x) }
    ensures { Put page.old (S.number_bytes x) page.new }
{
    page.put(&job::bits_of(x).to_le_bytes());
}

#[tactic(auto, unfolding(crate::specs::Writing::vector_bytes))]
fn put_vector(page: &mut Page<'_>, v: Vec3)
    requires { Fits page.old (S.vector_bytes v) }
    ensures { Put page.old (S.vector_bytes v) page.new }
{
    put_number(page, v.x);
    put_number(page, v.y);
    put_number(page, v.z);
}

// ---- a rotary
// Three bytes, then five zeros.
fn put_head(page: &mut Page<'_>, a: u8, b: u8, c: u8)
    requires { Fits page.old (S.head_bytes a b c) }
    ensures { Put page.old (S.head_bytes a b c) page.new }
{
    page.put(&[a, b, c, 0, 0, 0, 0, 0]);
}

// A byte of the file, so it is written here and not taken from the order of the variants.
fn carrier_byte(carrier: Carrier) -> u8
    ensures { result ≡ S.carrier_byte carrier }
{
    match carrier {
        Carrier::Table => 0,
        Carrier::Head => 1,
    }
}

fn limits_byte(limits: Option<RotaryLimits>) -> u8
    ensures { result ≡ S.limits_byte limits }
{
    limits.is_some() as u8
}

// The lower limit, +0.0 where there is none; and the upper one. Each by itself, since what stands for no limits is two
// zeros of the file and no `RotaryLimits`: a default of that would be limits that let nothing turn.
fn lower(limits: Option<RotaryLimits>) -> f64
    ensures { result ≡ S.lower limits }
{
    limits.map_or(0.0, |l| l.min)
}

fn upper(limits: Option<RotaryLimits>) -> f64
    ensures { result ≡ S.upper limits }
{
    limits.map_or(0.0, |l| l.max)
}

// The rest angle, in a record that has one.
#[tactic(auto, using(job::proofs::Written::put_none), unfolding(crate::specs::Writing::rest_bytes, job::specs::JobBytes::bytes_in))]
fn put_rest(page: &mut Page<'_>, kind: RecordKind, rest: f64)
    requires { Fits page.old (S.rest_bytes (bytes_in kind) rest) }
    ensures { Put page.old (S.rest_bytes (bytes_in kind) rest) page.new }
{
    match kind {
        RecordKind::NoRest => (),
        RecordKind::WithRest => put_number(page, rest),
    }
}

fn put_rotary(page: &mut Page<'_>, kind: RecordKind, j: RotaryJoint)
    requires { Fits page.old (S.rotary_bytes (bytes_in kind) j) }
    ensures { Put page.old (S.rotary_bytes (bytes_in kind) j) page.new }
{
    let carrier = j.carrier;
    let limits = j.limits;
    put_head(page, j.letter, carrier_byte(carrier), limits_byte(limits));
    put_vector(page, j.axis);
    put_vector(page, j.pivot);
    put_number(page, lower(limits));
    put_number(page, upper(limits));
    put_rest(page, kind, j.rest);
}

// ---- the chain
#[tactic(auto, using(job::proofs::Written::put_none), unfolding(crate::specs::Writing::second_bytes))]
fn put_second(page: &mut Page<'_>, kind: RecordKind, k: &Kinematics)
    requires { Fits page.old (S.second_bytes (bytes_in kind) k.now) }
    ensures { Put page.old (S.second_bytes (bytes_in kind) k.now) page.new }
{
    if let Some(j) = k.second_rotary() {
        put_rotary(page, kind, j);
    }
}

#[tactic(auto, unfolding(crate::specs::Writing::chain_bytes))]
fn put_chain(page: &mut Page<'_>, kind: RecordKind, k: &Kinematics)
    requires { Fits page.old (S.chain_bytes (bytes_in kind) k.now) }
    ensures { Put page.old (S.chain_bytes (bytes_in kind) k.now) page.new }
{
    put_head(page, k.count, 0, 0);
    put_rotary(page, kind, k.first);
    put_second(page, kind, k);
    put_vector(page, k.spindle_axis);
}

// ---- poses and trailer
fn put_poses(page: &mut Page<'_>, poses: &[f64])
    requires { Fits page.old (S.poses_bytes poses.now) }
    ensures { Put page.old (S.poses_bytes poses.now) page.new }
{
    for x in poses {
        put_number(page, *x);
    }
}

// `chain` is the chain's length: the poses begin at its end, also where there are none.
fn put_trailer(page: &mut Page<'_>, chain: u64, count: u64, word: u64, cone: f64, tol: Tolerances)
    requires { Fits page.old (S.trailer_bytes chain count word cone tol) }
    ensures { Put page.old (S.trailer_bytes chain count word cone tol) page.new }
{
    put_four(page, 0);
    put_four(page, chain);
    put_four(page, count);
    put_four(page, word);
    put_number(page, cone);
    put_number(page, tol.chord);
    put_number(page, tol.axis);
}

// Answers how many bytes the job has.
pub fn put_job(k: &Kinematics, poses: &[f64], cone: f64, tol: Tolerances, out: &mut [u8]) -> usize
    requires { (one_or_two k.now.count ≡ true) × (length_of k.now poses.now ≤ length out.old) }
    ensures end { result ≡ length_of k.now poses.now }
    ensures lent { out.new ≡ written out.old 0 (S.job_bytes k.now poses.now cone tol) }
{
    let mut page = Page { out, at: 0 };
    let kind = kind_of(k);
    put_chain(&mut page, kind, k);
    let chain = page.at as u64;
    put_poses(&mut page, poses);
    let count = poses.len() as u64 / 6;
    put_trailer(&mut page, chain, count, kind.word() as u64, cone, tol);
    page.at
}
