// The first joint set with an angle above a given one, in the groups whose largest is above.
ghost use Rattle.std.specs.Prelude.{◌+◌, ◌-◌, ◌*◌, ◌/◌, ◌≤◌, ◌<◌, ◌≡◌, length};
ghost use Rattle.extremes.specs.Summary.{group_count};
ghost use Rattle.extremes.specs.Asking as S;
ghost use Rattle.extremes.specs.AskingSteps.{found_in_group};
ghost use Rattle.extremes.specs.Entries.{found_among};

use crate::summing::{group_count, group_end};
use crate::{Question, Summed};
use chain::Joints;

impl Question {
    #[tactic(auto, unfolding(crate::specs::Asking::above))]
    fn above(self, j: Joints) -> bool
        ensures { result ≡ S.above self.rotary self.angle j }
    {
        self.angle < j.angle(self.rotary)
    }

    // Whether the largest of a group is above.
    fn opened(self, path: &Summed, g: usize) -> bool
        requires { g < group_count (length path.now.joints.now / 5) }
        ensures { result ≡ S.opened self.rotary self.angle path.now.summary.now g }
    {
        let high = turn::joints_in(path.summary, g * 10 + 5);
        self.above(high)
    }

    #[tactic(auto, unfolding(crate::specs::Asking::above_at))]
    fn above_at(self, joints: &[f64], i: usize) -> bool
        requires { i * 5 + 5 ≤ length joints.now }
        ensures { result ≡ S.above_at self.rotary self.angle joints.now i }
    {
        self.above(turn::joints_in(joints, i * 5))
    }

    // The first from an index on, before an end, that is above.
    fn first_in(self, joints: &[f64], from: usize, end: usize) -> Option<usize>
        requires { (from ≤ end) × (end * 5 ≤ length joints.now) }
        ensures { result ≡ found_among end (S.first_index (S.above_at self.rotary self.angle joints.now) from (end - from)) }
    {
        (from..end).find(|i| self.above_at(joints, *i))
    }

    // The same in a group, where it is opened.
    fn in_group(self, path: &Summed, g: usize) -> Option<usize>
        requires { g < group_count (length path.now.joints.now / 5) }
        ensures { result ≡ found_in_group self.rotary self.angle path.now.summary.now path.now.joints.now (length path.now.joints.now / 5) g }
    {
        if self.opened(path, g) {
            let from = g * 64;
            return self.first_in(path.joints, from, group_end(from, path.joints.len() / 5));
        }
        None
    }

    // The index among all joint sets.
    pub fn first_above(self, path: &Summed) -> Option<usize>
        ensures { let n = length path.now.joints.now / 5 in result ≡ found_among n (S.first_above self.rotary self.angle path.now.summary.now path.now.joints.now n) }
    {
        (0..group_count(path.joints.len() / 5)).find_map(|g| self.in_group(path, g))
    }
}
