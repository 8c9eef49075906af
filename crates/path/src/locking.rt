// Inside the cone: the rotary on the singular direction keeps its angle, and the other one brings the tool axis as near
// to its target as that allows.
ghost use Rattle.std.specs.Prelude.{◌≡◌};
ghost use Rattle.path.specs.Locking as S;

use crate::singular::nearest_pole;
use crate::unwinding::inside;
use crate::{Aim, Bounds, Setup, SingularFrame};
use chain::{Joints, Prepared, demand};
use geometry::{Turn, Vec3, dot, norm, rotate_vector};
use inverse::{Angles, AxisMap, SolvedAngle};
use refusal::{Cause, Refusal};

// A refusal of a pose; which pose, its caller knows.
pub fn refused(cause: Cause) -> Result<Joints, Refusal>
    ensures { result ≡ S.refused cause }
{
    Err(Refusal::new(cause, 0))
}

// The joints where they are within the limits.
#[tactic(auto, unfolding(crate::specs::Locking::within_limits))]
pub fn within_limits(b: Bounds, j: Joints) -> Result<Joints, Refusal>
    ensures { result ≡ S.within_limits b j }
{
    if inside(b, j) {
        return Ok(j);
    }
    let letter = b.axis_outside(j);
    Err(Refusal {
        cause: Cause::LeavesAxis,
        at: 0,
        letter,
    })
}

// The part of v that is square to the unit vector w. That of crate inverse is handed the product, which is known there.
#[tactic(auto, unfolding(crate::specs::Locking::square_part))]
fn square_part(v: Vec3, w: Vec3) -> Vec3
    ensures { result ≡ S.square_part v w }
{
    v - w * dot(w, v)
}

// With the query's part square to the axis, and the circle's radius.
#[tactic(auto, unfolding(crate::specs::Locking::on_circle))]
fn on_circle(axis: Vec3, along: f64, radius: f64, q_perp: Vec3) -> Option<Vec3>
    ensures { result ≡ S.on_circle axis along radius q_perp }
{
    let q_len = norm(q_perp);
    if q_len < 1e-9 {
        return None;
    }
    Some(axis * along + q_perp * (radius / q_len))
}

// The point nearest to the query on the circle of a point about a unit axis. None where the circle is a point, or every
// point of it ties.
#[tactic(auto, unfolding(crate::specs::Locking::closest_on_circle))]
fn closest_on_circle(axis: Vec3, point: Vec3, query: Vec3) -> Option<Vec3>
    ensures { result ≡ S.closest_on_circle axis point query }
{
    let radius = norm(square_part(point, axis));
    if radius < 1e-9 {
        return None;
    }
    on_circle(axis, dot(axis, point), radius, square_part(query, axis))
}

// The angle about the axis that takes the point nearest to the query.
#[tactic(auto, unfolding(crate::specs::Locking::fit))]
fn fit(axis: Vec3, point: Vec3, query: Vec3) -> Option<f64>
    ensures { result ≡ S.fit axis point query }
{
    let c = closest_on_circle(axis, point, query)?;
    match inverse::sp1(axis, point, c)? {
        SolvedAngle::Fixed(angle) => Some(angle),
        SolvedAngle::Free => None,
    }
}

// R(wa, x) R(wb, y) is to bring the spindle onto the target.
#[derive(Clone, Copy)]
struct Equation {
    map: AxisMap,
    spindle: Vec3,
    target: Vec3,
}

impl Equation {
    // The angle y with x locked, and below x with y locked. They differ in the vector that is turned, the way and the
    // axis: one function would be handed all of `fit(map.wa, rotate_vector(map.wb, spindle, Turn::of(y)), target)`.
    #[tactic(auto, unfolding(crate::specs::Locking::fit_second))]
    fn fit_second(&self, x: f64) -> Option<f64>
        ensures { let e = self.now in result ≡ S.fit_second e.map e.spindle e.target x }
    {
        let query = rotate_vector(self.map.wa, self.target, Turn::of(-x));
        fit(self.map.wb, self.spindle, query)
    }

    #[tactic(auto, unfolding(crate::specs::Locking::fit_first))]
    fn fit_first(&self, y: f64) -> Option<f64>
        ensures { let e = self.now in result ≡ S.fit_first e.map e.spindle e.target y }
    {
        let swung = rotate_vector(self.map.wb, self.spindle, Turn::of(y));
        fit(self.map.wa, swung, self.target)
    }

    // The angles with one rotary locked at its angle before. Where the other one has no fit it stays as it was too.
    #[tactic(auto, unfolding(crate::specs::Locking::locked_angles, crate::specs::Locking::locked_x, crate::specs::Locking::locked_y,))]
    fn locked_angles(&self, on_second: bool, previous: Angles) -> Angles
        ensures { let e = self.now in result ≡ S.locked_angles e.map on_second e.spindle e.target previous }
    {
        let map = self.map;
        let (x, y) = map.hints(previous);
        if locks_x(map, on_second) {
            let fit = self.fit_second(map.x_sign * x);
            return map.placed(x, map.y_sign * fit.unwrap_or(map.y_sign * y));
        }
        let fit = self.fit_first(map.y_sign * y);
        map.placed(map.x_sign * fit.unwrap_or(map.x_sign * x), y)
    }
}

// Whether the locked rotary is that of the equation's angle x.
#[tactic(auto, unfolding(crate::specs::Locking::locks_x))]
fn locks_x(map: AxisMap, on_second: bool) -> bool
    ensures { result ≡ S.locks_x map on_second }
{
    map.swapped == on_second
}

// The angles with the position that puts the tip on its place.
#[tactic(auto, using(inverse::proofs::FromTurns::pose_from_is, inverse::proofs::FromTurns::joints_from_is), unfolding(crate::specs::Locking::placed_at, crate::specs::Locking::finite_position))]
fn placed_at(p: Prepared, tip: Vec3, angles: Angles) -> Result<Joints, Refusal>
    ensures { result ≡ S.placed_at p tip angles }
{
    let turns = chain::turns_of(p, angles.a0, angles.a1);
    let pose0 = inverse::pose_from(p, turns, 0.0);
    let j = inverse::joints_from(p, turns, angles, tip, pose0.tip);
    demand(geometry::all_finite(j.xyz), Cause::NotFinite, 0)?;
    Ok(j)
}

#[tactic(auto, unfolding(crate::specs::Locking::locked_joints))]
fn locked_joints(s: &Setup, on_second: bool, aim: &Aim) -> Result<Joints, Refusal>
    ensures { result ≡ S.locked_joints s.now on_second aim.now.target aim.now.tip aim.now.previous }
{
    let p = s.chain;
    let previous = aim.previous;
    let map = inverse::axis_map_of(p);
    let parallel = inverse::parallel_axes(map.wa, map.wb);
    demand(!parallel, Cause::PoseUnreachable, 0)?;
    let equation = Equation {
        map,
        spindle: p.spindle,
        target: aim.target,
    };
    let locked = equation.locked_angles(on_second, previous);
    placed_at(p, aim.tip, s.bounds.unwind_angles(locked, previous))
}

// Whether the axis that the joints reach is further from its target than the cone is wide.
#[tactic(auto, unfolding(crate::specs::Locking::strays))]
fn strays(s: &Setup, target: Vec3, j: Joints) -> bool
    ensures { result ≡ S.strays s.now target j }
{
    let achieved = chain::pose_at(s.chain, j, 0.0);
    s.cone + 1e-6 < geometry::angle_between_deg(achieved.axis, target)
}

fn limited(b: Bounds, answer: Result<Joints, Refusal>) -> Result<Joints, Refusal>
    ensures { result ≡ S.limited b answer }
{
    let j = answer?;
    within_limits(b, j)
}

// One rotary locked; where the axis strays, once more toward the nearest pole, and not tested again.
#[tactic(auto, unfolding(crate::specs::Locking::cone_solution))]
pub fn cone_solution(s: &Setup, f: SingularFrame, aim: &Aim) -> Result<Joints, Refusal>
    ensures { result ≡ S.cone_solution s.now f aim.now.target aim.now.tip aim.now.previous }
{
    let j = locked_joints(s, f.on_second, aim)?;
    if strays(s, aim.target, j) {
        // Not `..*aim`, which Rattle does not read in a struct with a ghost field.
        let pole = Aim {
            target: nearest_pole(aim.target, f.direction),
            tip: aim.tip,
            previous: aim.previous,
        };
        return limited(s.bounds, locked_joints(s, f.on_second, &pole));
    }
    within_limits(s.bounds, j)
}
