// Two lent outputs of a path, six numbers for each pose and five for each joint set, with space for so many items.
// `space` is a field and no method of the two lengths: then each index would be below the smaller of two quotients.
// Three functions of the crates above make one of two lent slices. Tried: `over(poses, joints)` for the three. It is
// proved, but its callers are not: where the struct comes from a call, no fact says that what a lent slice holds at the
// end is what its field held.
ghost use Rattle.std.specs.Prelude.{◌*◌, ◌≤◌, length};

use crate::items::{item_at, put_pose};
use middle::Item;

#[derive(Drop)]
pub struct Outputs<'a> {
    pub space: usize,
    pub poses: &'a mut [f64],
    pub joints: &'a mut [f64],
    pub ghost poses_long: { space * 6 ≤ length poses.now },
    pub ghost joints_long: { space * 5 ≤ length joints.now },
}

impl Outputs<'_> {
    ghost use Rattle.std.specs.Prelude.{◌<◌, ◌≡◌};
    ghost use Rattle.turn.specs.Items as I;
    ghost use Rattle.turn.specs.Lent as S;

    pub fn item(&self, i: usize) -> Item
        requires { i < self.now.space }
        ensures { result ≡ I.item_at self.now.poses.now self.now.joints.now i }
    {
        item_at(self.poses, self.joints, i)
    }

    pub fn put(&mut self, t: Item, i: usize)
        requires { i < self.old.space }
        ensures { S.Left self.old (I.poses_with t self.old.poses.now i) (I.joints_with t self.old.joints.now i) self.new }
    {
        put_pose(t.pose, self.poses, i * 6);
        path::put_joints(t.joints, self.joints, i * 5);
    }
}
