// A path in lent numbers, six for each pose and five for each joint set, made where its lengths were checked.
ghost use Rattle.std.specs.Prelude.{◌*◌, ◌≡◌, ◌<◌, length};

use crate::items::item_at;
use crate::turning::axis_at;
use chain::Prepared;
use geometry::Vec3;
use middle::Item;

// As many poses as joint sets, in the flat numbers that C lends. As `&[[f64; 6]]` and `&[[f64; 5]]` they would be made
// flat again: the definitions `item_at`, `axis_at` and `items_in` are of flat numbers, so is what the division writes,
// and each contract would say `flat` of both. The count is no `poses.len() / 6`: each index would be below a quotient.
#[derive(Clone, Copy)]
pub struct GivenPath<'a> {
    pub count: usize,
    pub poses: &'a [f64],
    pub joints: &'a [f64],
    pub ghost poses_whole: { length poses.now ≡ count * 6 },
    pub ghost joints_whole: { length joints.now ≡ count * 5 },
}

impl GivenPath<'_> {
    ghost use Rattle.turn.specs.Items as I;
    ghost use Rattle.turn.specs.Turning as S;

    pub fn item(&self, i: usize) -> Item
        requires { i < self.now.count }
        ensures { result ≡ I.item_at self.now.poses.now self.now.joints.now i }
    {
        item_at(self.poses, self.joints, i)
    }

    // The axis that the joints of an item reach.
    pub fn axis(&self, p: Prepared, i: usize) -> Vec3
        requires { i < self.now.count }
        ensures { result ≡ S.axis_at p self.now.joints.now i }
    {
        axis_at(p, self.joints, i)
    }
}
