// Paden-Kahan subproblems 1 and 2, with the tolerances of the Rust: an angle is refused where the two vectors' parts
// differ by more than 1e-7, and free where a part is shorter than 1e-9.
ghost use Rattle.std.specs.Prelude.{◌≡◌};
ghost use Rattle.inverse.specs.Subproblem as S;

use crate::{SolvedAngle, SolvedPairs, UpToTwo};
use geometry::{Vec3, cross, dot, norm};

// The part of v that is square to w, of which `along` is the part along it. Crate path has one that finds `along`
// itself: `inverse::square_part(v, w, dot(w, v))` would be no plainer there than `v - w * dot(w, v)`.
#[tactic(auto, unfolding(crate::specs::Subproblem::square_part))]
fn square_part(v: Vec3, w: Vec3, along: f64) -> Vec3
    ensures { result ≡ S.square_part v w along }
{
    v - w * along
}

// The two parts, square to w, by the arctangent of the turn's sine and cosine.
#[tactic(auto, unfolding(crate::specs::Subproblem::turned_by))]
fn turned_by(w: Vec3, u_perp: Vec3, v_perp: Vec3) -> Option<SolvedAngle>
    ensures { result ≡ S.turned_by w u_perp v_perp }
{
    let sin_term = dot(w, cross(u_perp, v_perp));
    let cos_term = dot(u_perp, v_perp);
    let radians = trig::arctangent(sin_term, cos_term)?;
    let degrees = float::to_degrees(radians);
    Some(SolvedAngle::Fixed(degrees))
}

// The angle between two parts that are square to w.
#[tactic(auto, unfolding(crate::specs::Subproblem::between_parts))]
fn between_parts(w: Vec3, u_perp: Vec3, v_perp: Vec3) -> Option<SolvedAngle>
    ensures { result ≡ S.between_parts w u_perp v_perp }
{
    let u_len = norm(u_perp);
    let v_len = norm(v_perp);
    if 1e-7 < float::size(u_len - v_len) {
        return None;
    }
    if u_len < 1e-9 {
        return Some(SolvedAngle::Free);
    }
    turned_by(w, u_perp, v_perp)
}

// The angle in degrees about the unit vector w that takes u to v.
pub fn sp1(w: Vec3, u: Vec3, v: Vec3) -> Option<SolvedAngle>
    ensures { result ≡ S.sp1 w u v }
{
    let along_u = dot(w, u);
    let along_v = dot(w, v);
    if 1e-7 < float::size(along_u - along_v) {
        return None;
    }
    between_parts(w, square_part(u, w, along_u), square_part(v, w, along_v))
}

// R(wa, x) R(wb, y) p = q, for unit vectors wa and wb that are not parallel.
#[derive(Clone, Copy)]
struct Equation {
    wa: Vec3,
    wb: Vec3,
    p: Vec3,
    q: Vec3,
}

// The circle about wa through q: how far along wa it lies, its radius, and the direction in it along the square part of
// wb.
#[derive(Clone, Copy)]
struct Circle {
    qa: f64,
    rho: f64,
    e1: Vec3,
}

impl Equation {
    // From p by y about wb to c, and from c by x about wa to q.
    #[tactic(auto, unfolding(crate::specs::Subproblem::solved_pair))]
    fn solved_pair(self, c: Vec3) -> Option<(SolvedAngle, SolvedAngle)>
        ensures { result ≡ S.solved_pair self.wa self.wb self.p self.q c }
    {
        let y = sp1(self.wb, self.p, c)?;
        let x = sp1(self.wa, c, self.q)?;
        Some((x, y))
    }

    // The point of the circle in the direction (cosine, sine) of the frame e1, e2.
    #[tactic(auto, unfolding(crate::specs::Subproblem::on_circle))]
    fn on_circle(self, circle: Circle, e2: Vec3, cosine: f64, sine: f64) -> Vec3
        ensures { result ≡ S.on_circle self.wa circle.qa circle.rho circle.e1 e2 cosine sine }
    {
        let dir = circle.e1 * cosine + e2 * sine;
        self.wa * circle.qa + dir * circle.rho
    }

    // The two points, or the one where they meet, in the frame e1, e2 about wa.
    fn both_points(self, circle: Circle, e2: Vec3, cosine: f64) -> SolvedPairs
        ensures { result ≡ S.both_points self.wa self.wb self.p self.q circle.e1 e2 cosine circle.qa circle.rho }
    {
        let sine = sine_of(cosine);
        let above = self.on_circle(circle, e2, cosine, 1.0 * sine);
        let first = self.solved_pair(above);
        if sine <= 1e-9 {
            return UpToTwo::first_only(first);
        }
        let below = self.on_circle(circle, e2, cosine, -1.0 * sine);
        let second = self.solved_pair(below);
        UpToTwo { first, second }
    }

    // With e2, square to e1 and to wa.
    #[tactic(auto, unfolding(crate::specs::Subproblem::in_frame))]
    fn in_frame(self, circle: Circle, cosine: f64) -> SolvedPairs
        ensures { result ≡ S.in_frame self.wa self.wb self.p self.q circle.e1 cosine circle.qa circle.rho }
    {
        let side = cross(self.wa, circle.e1);
        let side_len = norm(side);
        if side_len <= 1e-9 {
            return UpToTwo::first_only(None);
        }
        let e2 = side * (1.0 / side_len);
        self.both_points(circle, e2, cosine)
    }

    // With the cosine of the angle between the square parts of wb and of c.
    #[tactic(auto, unfolding(crate::specs::Subproblem::about_circle))]
    fn about_circle(self, circle: Circle, cosine: f64) -> SolvedPairs
        ensures { result ≡ S.about_circle self.wa self.wb self.p self.q circle.e1 cosine circle.qa circle.rho }
    {
        if 1.0 + 1e-7 < float::size(cosine) {
            return UpToTwo::first_only(None);
        }
        self.in_frame(circle, float::clamp_unit(cosine))
    }

    // With the square part of wb and its length, at the distance rho of q from wa.
    #[tactic(auto, unfolding(crate::specs::Subproblem::through_point))]
    fn through_point(self, wb_perp: Vec3, wb_len: f64, d: f64, qa: f64, rho: f64) -> SolvedPairs
        ensures { result ≡ S.through_point self.wa self.wb self.p self.q wb_perp wb_len d qa rho }
    {
        if rho == 0.0 {
            return UpToTwo::first_only(self.solved_pair(self.wa * qa));
        }
        let cosine = (dot(self.wb, self.p) - d * qa) / (rho * wb_len);
        let e1 = wb_perp * (1.0 / wb_len);
        self.about_circle(Circle { qa, rho, e1 }, cosine)
    }

    #[tactic(auto, unfolding(crate::specs::Subproblem::beside))]
    fn beside(self, wb_perp: Vec3, wb_len: f64, d: f64, qa: f64) -> SolvedPairs
        ensures { result ≡ S.beside self.wa self.wb self.p self.q wb_perp wb_len d qa }
    {
        let rho = norm(square_part(self.q, self.wa, qa));
        self.through_point(wb_perp, wb_len, d, qa, rho)
    }
}

#[tactic(auto, unfolding(crate::specs::Subproblem::sine_beside))]
fn sine_of(cosine: f64) -> f64
    ensures { result ≡ S.sine_beside cosine }
{
    root::root(float::maximum((1.0 - cosine) * (1.0 + cosine), 0.0))
}

// The angles with R(wa, x) R(wb, y) p = q, for unit vectors wa and wb that are not parallel.
#[tactic(auto, unfolding(crate::specs::Subproblem::sp2))]
pub fn sp2(wa: Vec3, wb: Vec3, p: Vec3, q: Vec3) -> SolvedPairs
    ensures { result ≡ S.sp2 wa wb p q }
{
    let d = dot(wa, wb);
    let wb_perp = square_part(wb, wa, d);
    let wb_len = norm(wb_perp);
    if wb_len <= 1e-9 {
        return UpToTwo::first_only(None);
    }
    Equation { wa, wb, p, q }.beside(wb_perp, wb_len, d, dot(wa, q))
}

// A joint's angle from the equation's, or the hint where that is free.
pub fn apply_angle(solved: SolvedAngle, sign: f64, hint: f64) -> f64
    ensures { result ≡ S.apply_angle solved sign hint }
{
    match solved {
        SolvedAngle::Free => hint,
        SolvedAngle::Fixed(angle) => sign * angle,
    }
}
