// The text of an answer, in a lent buffer: the path with its figures, a line for each joint set, or a refusal, with
// the pose where there is one. What has no room is 28 with count 0, and the buffer is kept; bytes behind a text stay.
ghost use Rattle.std.specs.Prelude.{◌≡◌, ◌≤◌, is_some, length};
ghost use Rattle.job.specs.Spelling.{Fits, Put, decimal, labelled, number};
ghost use Rattle.job.specs.Cable.{joint_sets};
ghost use Rattle.job.specs.Telling as S;

use crate::spelling::{Page, bits_of, hexadecimal, width};
use crate::{Figures, JobError};
use chain::{Joints, demand};
use refusal::{Cause, Refusal};

// ---- what is put
// By `put`, and not by `write!`: that says what it wrote only where it answers `Ok`, and the promise is of every byte.
impl Page<'_> {
    fn put_decimal(&mut self, x: u64)
        requires { Fits self.old (decimal x) }
        ensures { Put self.old (decimal x) self.new }
    {
        let mut buffer = itoa::Buffer::new();
        self.put(buffer.format(x).as_bytes());
    }

    // A word, then a number.
    #[tactic(auto, using(crate::proofs::Written::fits_next), unfolding(crate::specs::Spelling::labelled))]
    fn put_labelled(&mut self, label: &[u8], x: u64)
        requires { Fits self.old (labelled label.now x) }
        ensures { Put self.old (labelled label.now x) self.new }
    {
        self.put(label);
        self.put_decimal(x);
    }

    // A space and 16 hexadecimal digits.
    fn put_number(&mut self, x: f64)
        requires { Fits self.old (number x) }
        ensures { Put self.old (number x) self.new }
    {
        self.put(b" ");
        self.put(&hexadecimal(bits_of(x)));
    }

    #[tactic(auto, unfolding(crate::specs::Telling::numbers))]
    fn put_numbers(&mut self, j: Joints)
        requires { Fits self.old (S.numbers j) }
        ensures { Put self.old (S.numbers j) self.new }
    {
        let xyz = j.xyz;
        self.put_number(xyz.x);
        self.put_number(xyz.y);
        self.put_number(xyz.z);
        self.put_number(j.a0);
        self.put_number(j.a1);
        self.put(b"\n");
    }

    #[tactic(auto, using(crate::proofs::Written::fits_next), unfolding(crate::specs::Telling::line))]
    fn put_line(&mut self, i: u64, j: Joints)
        requires { Fits self.old (S.line i j) }
        ensures { Put self.old (S.line i j) self.new }
    {
        self.put_decimal(i);
        self.put_numbers(j);
    }

    fn put_lines(&mut self, joints: &[f64])
        requires { Fits self.old (S.lines 0 (joint_sets joints.now)) }
        ensures { Put self.old (S.lines 0 (joint_sets joints.now)) self.new }
    {
        let (sets, _) = joints.as_chunks::<5>();
        for (i, set) in sets.iter().enumerate() {
            self.put_line(i as u64, turn::joints_in(set, 0));
        }
    }

    #[tactic(auto, unfolding(crate::specs::Telling::head, crate::specs::Spelling::paired))]
    fn put_head(&mut self, f: Figures, n: u64)
        requires { Fits self.old (S.head f n) }
        ensures { Put self.old (S.head f n) self.new }
    {
        self.put_labelled(b"poses ", n);
        self.put_labelled(b" inserted ", f.inserted);
        self.put_labelled(b" turns ", f.first);
        self.put_labelled(b" ", f.second);
        self.put(b"\n");
    }

    // Nothing of a refusal of no pose.
    #[tactic(auto, using(crate::proofs::Written::put_none), unfolding(crate::specs::Telling::pose_part))]
    fn put_pose(&mut self, pose: Option<u64>)
        requires { Fits self.old (S.pose_part pose) }
        ensures { Put self.old (S.pose_part pose) self.new }
    {
        if let Some(at) = pose {
            self.put_labelled(b" pose ", at);
        }
    }
}

// What n lines leave of the room behind what is used, if they fit. A line is as long as its index is wide, so the index
// is the item. No `try_fold`: tried, and what it promises of its turns did not give the proof the sum of the widths.
fn room_left(n: usize, used: usize, room: usize) -> Option<usize>
    requires { n ≤ 9223372036854775807 }
    ensures { is_some result ≡ S.lines_fit n used room }
{
    let mut left = room.checked_sub(used)?;
    for i in 0..n {
        left = left.checked_sub(width(i as u64) + 86)?;
    }
    Some(left)
}

// ---- the first line
#[tactic(auto, unfolding(crate::specs::Telling::head_length))]
fn head_length(f: Figures, n: u64) -> usize
    ensures { result ≡ S.head_length f n }
{
    let poses = width(n);
    let inserted = width(f.inserted);
    let first = width(f.first);
    let second = width(f.second);
    25 + (poses + inserted + first + second)
}

// ---- the texts
fn path_text(f: Figures, joints: &[f64], out: &mut [u8]) -> Result<usize, Refusal>
    ensures told { result ≡ S.told (S.path_text f (joint_sets joints.now)) (length out.old) }
    ensures lent { out.new ≡ S.told_over (S.path_text f (joint_sets joints.now)) out.old }
{
    let n = joints.len() / 5;
    let used = head_length(f, n as u64);
    let left = room_left(n, used, out.len());
    demand(left.is_some(), Cause::NoSpace, 0)?;
    let mut page = Page { out, at: 0 };
    page.put_head(f, n as u64);
    page.put_lines(joints);
    Ok(page.at)
}

fn refused_length(cause: Cause, pose: Option<u64>) -> usize
    ensures { result ≡ length (S.refused_text cause pose) }
{
    let refused = 9 + width(cause.number() as u64);
    match pose {
        None => refused,
        Some(at) => refused + (6 + width(at)),
    }
}

// A refusal, with the pose that it names.
fn refused_text(cause: Cause, pose: Option<u64>, out: &mut [u8]) -> Result<usize, Refusal>
    ensures told { result ≡ S.told (S.refused_text cause pose) (length out.old) }
    ensures lent { out.new ≡ S.told_over (S.refused_text cause pose) out.old }
{
    demand(refused_length(cause, pose) <= out.len(), Cause::NoSpace, 0)?;
    let mut page = Page { out, at: 0 };
    page.put_labelled(b"refused ", cause.number() as u64);
    page.put_pose(pose);
    page.put(b"\n");
    Ok(page.at)
}

// The text of what a job came to; `joints` is its divided path.
#[tactic(auto, unfolding(crate::specs::Telling::refused_text, crate::specs::Telling::refusal_text, crate::specs::Telling::pose_text))]
pub fn answer_text(
    ended: Result<Figures, JobError>,
    joints: &[f64],
    out: &mut [u8],
) -> Result<usize, Refusal>
    ensures told { result ≡ S.told (S.text_of ended (joint_sets joints.now)) (length out.old) }
    ensures lent { out.new ≡ S.told_over (S.text_of ended (joint_sets joints.now)) out.old }
{
    match ended {
        Ok(f) => path_text(f, joints, out),
        Err(JobError::Refused(r)) => refused_text(r.cause, None, out),
        Err(JobError::AtPose(r)) => refused_text(r.cause, Some(r.at), out),
    }
}
