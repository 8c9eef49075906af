// How the orientation equation's two angles belong to the joints: tables turn the work, so their angles count negative;
// the inner joint of two parallel ones keeps the hint.
ghost use Rattle.std.specs.Prelude.{◌≡◌};
ghost use Rattle.inverse.specs.AxisMap as S;

use crate::subproblem::apply_angle;
use crate::{Angles, AxisMap, SolvedAngle};
use chain::{Carrier, Prepared, Spin};
use geometry::{Vec3, cross, norm};

fn two_tables(outer: Vec3, inner: Vec3) -> AxisMap
    ensures { result ≡ S.two_tables outer inner }
{
    AxisMap {
        wa: inner,
        wb: outer,
        swapped: true,
        x_sign: -1.0,
        y_sign: -1.0,
        inner_is_x: true,
    }
}

fn two_heads(outer: Vec3, inner: Vec3) -> AxisMap
    ensures { result ≡ S.two_heads outer inner }
{
    AxisMap {
        wa: outer,
        wb: inner,
        swapped: false,
        x_sign: 1.0,
        y_sign: 1.0,
        inner_is_x: false,
    }
}

// The head is the inner factor. `swapped` where the table is the second rotary.
fn table_and_head(table: Vec3, head: Vec3, swapped: bool) -> AxisMap
    ensures { result ≡ S.table_and_head table head swapped }
{
    AxisMap {
        wa: table,
        wb: head,
        swapped,
        x_sign: -1.0,
        y_sign: 1.0,
        inner_is_x: false,
    }
}

// Of two rotaries. A chain of one has no such equation, and what stands for the second counts as a head that turns
// about the first one's axis.
#[tactic(auto, unfolding(crate::specs::AxisMap::axis_map_of))]
pub fn axis_map_of(p: Prepared) -> AxisMap
    ensures { result ≡ S.axis_map_of p }
{
    let first = p.first;
    let second = p.second.unwrap_or(Spin {
        carrier: Carrier::Head,
        ..first
    });
    match (first.carrier, second.carrier) {
        (Carrier::Table, Carrier::Table) => two_tables(first.axis, second.axis),
        (Carrier::Table, Carrier::Head) => table_and_head(first.axis, second.axis, false),
        (Carrier::Head, Carrier::Table) => table_and_head(second.axis, first.axis, true),
        (Carrier::Head, Carrier::Head) => two_heads(first.axis, second.axis),
    }
}

// Whether the cross product of two unit axes is shorter than 1e-9.
pub fn parallel_axes(wa: Vec3, wb: Vec3) -> bool
    ensures { result ≡ S.parallel_axes wa wb }
{
    norm(cross(wa, wb)) < 1e-9
}

impl AxisMap {
    // The two numbers of x and y in the order of the rotaries.
    #[tactic(auto, unfolding(crate::specs::AxisMap::placed))]
    pub fn placed(self, x: f64, y: f64) -> Angles
        ensures { result ≡ S.placed self x y }
    {
        if self.swapped {
            return Angles { a0: y, a1: x };
        }
        Angles { a0: x, a1: y }
    }

    // The hints for x and for y.
    pub fn hints(self, hint: Angles) -> (f64, f64)
        ensures { result ≡ (S.hint_x self hint, S.hint_y self hint) }
    {
        if self.swapped {
            return (hint.a1, hint.a0);
        }
        (hint.a0, hint.a1)
    }

    #[tactic(auto, unfolding(crate::specs::AxisMap::angles))]
    pub fn angles(self, x: SolvedAngle, y: SolvedAngle, hint: Angles) -> Angles
        ensures { result ≡ S.angles self x y hint }
    {
        let (for_x, for_y) = self.hints(hint);
        let of_x = apply_angle(x, self.x_sign, for_x);
        let of_y = apply_angle(y, self.y_sign, for_y);
        self.placed(of_x, of_y)
    }
}
