// The first pair that meets: by the earlier ball, then by the later.
ghost use Rattle.std.specs.Float.Ieee as Ieee;
ghost use Rattle.std.specs.Prelude.{◌<◌, ◌≡◌, length, position};
ghost use Rattle.geometry.specs.Vector.{gap_vec};
ghost use Rattle.meet.specs.Meeting as S;
ghost use Rattle.meet.specs.MeetingSteps as T;

use crate::{Ball, LinkPair};
use geometry::Vec3;

// Whether the gap of two points is below a length. Where its square is above that of the length, both rounded, it is not
// (`far_apart`), and no root is taken: so it is of most pairs.
fn nearer(left: Vec3, right: Vec3, length: f64) -> bool
    ensures { result ≡ Ieee.lt (gap_vec left right) length }
{
    let way = left - right;
    let squared = geometry::dot(way, way);
    if length * length < squared {
        return false;
    }
    root::root(squared) < length
}

#[tactic(auto, unfolding(crate::specs::MeetingSteps::near))]
fn near(left: Ball, right: Ball) -> bool
    ensures { result ≡ T.near left right }
{
    left.kind != right.kind && nearer(left.middle, right.middle, left.radius + right.radius)
}

fn first_near(ball: Ball, others: &[Ball]) -> Option<usize>
    ensures { result ≡ position (T.near ball) others.now }
{
    others.iter().position(|other| near(ball, *other))
}

// The first ball behind the one at an index that is near it.
fn pair_of(balls: &[Ball], first: usize) -> Option<LinkPair>
    requires { first < length balls.now }
    ensures { result ≡ T.pair_of balls.now first }
{
    let k = first_near(balls[first], &balls[first + 1..])?;
    let second = first + 1 + k;
    Some(LinkPair { first, second })
}

// By index and no `enumerate`: what `pair_of` asks of it is then found alone.
pub fn first_pair(balls: &[Ball]) -> Option<LinkPair>
    ensures { result ≡ S.first_pair T.near 0 balls.now }
{
    (0..balls.len()).find_map(|first| pair_of(balls, first))
}
