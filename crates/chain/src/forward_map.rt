// The forward map: from the gauge point and the angles to the tool's tip and axis in the part frame. Heads move the
// tool, inner joint first; the part frame follows by turning the tables back, outer joint first.
ghost use Rattle.std.specs.Prelude.{◌+◌, ◌*◌, ◌≤◌, ◌≡◌, length, Float};
ghost use Rattle.geometry.specs.declared.Turn.{Turn};
ghost use Rattle.chain.specs.ChainBytes.{read_chain};
ghost use Rattle.chain.specs.Forward as S;
ghost use Rattle.chain.specs.ReadySteps as Steps;

use crate::bytes_at::vector_at;
use crate::chain_bytes::{read_chain, record_length};
use crate::checks::{
    chain_check, chain_within, demand, joints_finite, joints_within, one_or_two, within,
};
use crate::prepare_chain::prepare;
use crate::ready_chain::spin_at;
use crate::{Carrier, ChainBytes, Joints, Kinematics, Prepared, Spin, ToolPose, Turns};
use geometry::{Turn, Vec3};
use refusal::{Cause, Refusal};

// By which angle forward turns a rotary: a head by its own, a table by the negated one.
fn forward_angle(carrier: Carrier, angle: f64) -> f64
    ensures { result ≡ S.forward_angle carrier angle }
{
    match carrier {
        Carrier::Table => -angle,
        Carrier::Head => angle,
    }
}

// By what makes a turn of an angle: `Turn::of`, or the table of a Hirth coupling. The angles are two numbers: some
// callers have them in `Joints`, some in inverse's `Angles`, and each is of one rotary here.
pub fn turns_by<F: Fn(f64) -> Turn>(p: Prepared, a0: f64, a1: f64, turn: F) -> Turns
    requires { F.IsAlwaysCallable turn }
    ensures { (t : Float → Turn) → ((x : Float) (r : Turn) → F.post turn x r → r ≡ t x) → result ≡ S.turns_by t p a0 a1 }
{
    let first = turn(forward_angle(p.first.carrier, a0));
    let second = match p.second {
        Some(s) => turn(forward_angle(s.carrier, a1)),
        None => Turn::still(),
    };
    Turns { first, second }
}

pub fn turns_of(p: Prepared, a0: f64, a1: f64) -> Turns
    ensures { result ≡ S.turns_of p a0 a1 }
{
    turns_by(p, a0, a1, Turn::of)
}

// These four stay apart: one function of a carrier and a kind of turn would be
// `moved(s, Carrier::Head, turn, point)` for `head_point(s, turn, point)`.
// A point moved by a rotary of the head; a table leaves it.
#[tactic(auto, unfolding(crate::specs::Forward::head_point))]
pub fn head_point(s: Spin, turn: Turn, point: Vec3) -> Vec3
    ensures { result ≡ S.head_point s turn point }
{
    match s.carrier {
        Carrier::Head => geometry::rotate_point(s.axis, s.pivot, point, turn),
        Carrier::Table => point,
    }
}

#[tactic(auto, unfolding(crate::specs::Forward::head_vector))]
pub fn head_vector(s: Spin, turn: Turn, v: Vec3) -> Vec3
    ensures { result ≡ S.head_vector s turn v }
{
    match s.carrier {
        Carrier::Head => geometry::rotate_vector(s.axis, v, turn),
        Carrier::Table => v,
    }
}

#[tactic(auto, unfolding(crate::specs::Forward::table_point))]
pub fn table_point(s: Spin, turn: Turn, point: Vec3) -> Vec3
    ensures { result ≡ S.table_point s turn point }
{
    match s.carrier {
        Carrier::Table => geometry::rotate_point(s.axis, s.pivot, point, turn),
        Carrier::Head => point,
    }
}

#[tactic(auto, unfolding(crate::specs::Forward::table_vector))]
pub fn table_vector(s: Spin, turn: Turn, v: Vec3) -> Vec3
    ensures { result ≡ S.table_vector s turn v }
{
    match s.carrier {
        Carrier::Table => geometry::rotate_vector(s.axis, v, turn),
        Carrier::Head => v,
    }
}

// The chain and its turns stay two arguments, here and below: one chain goes with two kinds of turns, back to `reach`
// and forth to `position`, and each call would write `Turned { p: &p, turns }`.
//
// A point or a direction with the inner rotary turned, then the first one: `turned` is how one rotary takes it along,
// of a table or of a head.
pub fn carried<F: Fn(Spin, Turn, Vec3) -> Vec3>(
    p: Prepared,
    turns: Turns,
    v: Vec3,
    turned: F,
) -> Vec3
    requires { F.IsAlwaysCallable turned }
    ensures { (f : Spin → Turn → Vec3 → Vec3) → ((s : Spin) (t : Turn) (u : Vec3) (r : Vec3) → F.post turned s t u r → r ≡ f s t u) → result ≡ S.carried f p turns v }
{
    let inner = p.second.map_or(v, |s| turned(s, turns.second, v));
    turned(p.first, turns.first, inner)
}

// The way back through the chain: the first rotary turned, then the inner one.
fn carried_back<F: Fn(Spin, Turn, Vec3) -> Vec3>(
    p: Prepared,
    turns: Turns,
    v: Vec3,
    turned: F,
) -> Vec3
    requires { F.IsAlwaysCallable turned }
    ensures { (f : Spin → Turn → Vec3 → Vec3) → ((s : Spin) (t : Turn) (u : Vec3) (r : Vec3) → F.post turned s t u r → r ≡ f s t u) → result ≡ S.carried_back f p turns v }
{
    let outer = turned(p.first, turns.first, v);
    p.second.map_or(outer, |s| turned(s, turns.second, outer))
}

// The tip, and the axis before it is normalised.
#[tactic(auto, unfolding(crate::specs::Forward::reach))]
fn reach(p: Prepared, turns: Turns, xyz: Vec3, tool_length: f64) -> ToolPose
    ensures { result ≡ S.reach p turns xyz tool_length }
{
    let gauge = p.spindle * -tool_length;
    let machine = xyz + carried(p, turns, gauge, head_point);
    let tip = carried_back(p, turns, machine, table_point);
    let axis = reach_axis(p, turns);
    ToolPose { tip, axis }
}

#[tactic(auto, unfolding(crate::specs::Forward::reach_axis))]
fn reach_axis(p: Prepared, turns: Turns) -> Vec3
    ensures { result ≡ S.reach_axis p turns }
{
    let machine = carried(p, turns, p.spindle, head_vector);
    carried_back(p, turns, machine, table_vector)
}

// Forward, total: where the reached axis has no direction it is the unit spindle.
#[tactic(auto, unfolding(crate::specs::Forward::forward_core))]
pub fn forward_core(p: Prepared, turns: Turns, xyz: Vec3, tool_length: f64) -> ToolPose
    ensures { result ≡ S.forward_core p turns xyz tool_length }
{
    let reached = reach(p, turns, xyz, tool_length);
    let axis = geometry::unit_or(reached.axis, p.spindle);
    ToolPose { axis, ..reached }
}

// The same at joints, for a caller that wants the turns for nothing else. `forward` and `forward_from` go by `reach`:
// they refuse an axis without a direction, and here the spindle stands in its place.
pub fn pose_at(p: Prepared, j: Joints, tool_length: f64) -> ToolPose
    ensures { result ≡ S.pose_at p j tool_length }
{
    forward_core(p, turns_of(p, j.a0, j.a1), j.xyz, tool_length)
}

// The gauge position that puts the tip on the wanted one: the difference of the two, in the machine frame. `forth`
// turns each table by its angle.
#[tactic(auto, unfolding(crate::specs::Forward::position))]
pub fn position(p: Prepared, forth: Turns, tip: Vec3, tip0: Vec3) -> Vec3
    ensures { result ≡ S.position p forth tip tip0 }
{
    carried(p, forth, tip - tip0, table_vector)
}

// Finite and not below zero.
#[tactic(auto, unfolding(crate::specs::Forward::length_good))]
pub fn length_good(tool_length: f64) -> bool
    ensures { result ≡ S.length_good tool_length }
{
    float::finite(tool_length) && !(tool_length < 0.0)
}

// The joints and the tool's length stay two arguments of these: a struct of both would be made by the public functions,
// which have them apart as C has, and taken apart again: sizes are judged one by one, and `reach` takes no angle.
#[tactic(auto, unfolding(crate::specs::Forward::forward_sizes))]
fn forward_sizes(k: &Kinematics, j: Joints, tool_length: f64) -> bool
    ensures { result ≡ S.forward_sizes k.now j tool_length }
{
    within(tool_length, 100000.0) && joints_within(j) && chain_within(k)
}

#[tactic(auto, unfolding(crate::specs::Forward::forward_check))]
fn forward_check(k: &Kinematics, j: Joints, tool_length: f64) -> Result<(), Refusal>
    ensures { result ≡ S.forward_check k.now j tool_length }
{
    demand(length_good(tool_length), Cause::ToolLength, 0)?;
    chain_check(k)?;
    demand(joints_finite(j), Cause::NotFinite, 0)?;
    demand(forward_sizes(k, j, tool_length), Cause::TooLarge, 0)
}

// The reached pose with its unit axis.
#[tactic(auto, unfolding(crate::specs::Forward::posed))]
fn posed(reached: ToolPose) -> Result<ToolPose, Refusal>
    ensures { result ≡ S.posed reached }
{
    let axis = geometry::unit_direction(reached.axis).ok_or(Refusal::new(Cause::SpindleZero, 0))?;
    Ok(ToolPose { axis, ..reached })
}

// The tool pose in the part frame, or the first refusal.
#[tactic(auto, unfolding(crate::specs::Forward::forward))]
pub fn forward(k: &Kinematics, j: Joints, tool_length: f64) -> Result<ToolPose, Refusal>
    ensures { result ≡ S.forward k.now j tool_length }
{
    forward_check(k, j, tool_length)?;
    let p = prepare(k);
    let turns = turns_of(p, j.a0, j.a1);
    posed(reach(p, turns, j.xyz, tool_length))
}

// A length from 0 to 100,000, and joints within their limits: all of them are finite, then.
#[tactic(auto, unfolding(crate::specs::ReadySteps::numbers_good))]
fn numbers_good(j: Joints, tool_length: f64) -> bool
    ensures { result ≡ Steps.numbers_good j tool_length }
{
    !(tool_length < 0.0) && within(tool_length, 100000.0) && joints_within(j)
}

fn refused_by(checked: Result<(), Refusal>) -> Result<ToolPose, Refusal>
    ensures { result ≡ Steps.refused_by checked }
{
    checked?;
    Err(Refusal::new(Cause::SpindleZero, 0))
}

// The first refusal, where there is one.
fn refused_read(
    read: Result<Kinematics, Refusal>,
    j: Joints,
    tool_length: f64,
) -> Result<ToolPose, Refusal>
    ensures { result ≡ Steps.refused_read read j tool_length }
{
    refused_by(forward_check(&read?, j, tool_length))
}

impl ChainBytes<'_> {
    // What `reach` answers, where every check of the chain passes. The prepared chain does not leave this function.
    #[tactic(auto, unfolding(crate::specs::ReadySteps::reached_counted, crate::specs::ReadySteps::ready_counted))]
    fn reached(self, j: Joints, tool_length: f64) -> Option<ToolPose>
        ensures { result ≡ Steps.reached_counted self.entry.w self.entry.bytes.now self.entry.count j tool_length }
    {
        if !self.first_good() || !self.second_good() {
            return None;
        }
        let axis = geometry::unit_direction(vector_at(self.bytes, 16))?;
        let second = self.directed_second()?;
        let spindle = geometry::unit_direction(self.spindle_axis())?;
        let p = Prepared {
            first: spin_at(self.bytes, 8, axis),
            second,
            spindle,
        };
        let turns = turns_of(p, j.a0, j.a1);
        Some(reach(p, turns, j.xyz, tool_length))
    }
}

// The chain is prepared while it is checked. None is no refusal yet: it says that the list of checks has one.
fn reached_from(bytes: &[u8], j: Joints, tool_length: f64) -> Option<ToolPose>
    ensures { Steps.told result (read_chain bytes.now) j tool_length ≡ S.forward_read (read_chain bytes.now) j tool_length }
{
    if !numbers_good(j, tool_length) {
        return None;
    }
    let count = *bytes.first()?;
    let w = record_length(bytes.len(), count);
    if !one_or_two(count) || bytes.len() != 32 + w * count as usize {
        return None;
    }
    ChainBytes { bytes, w, count }.reached(j, tool_length)
}

// `forward` of a chain's bytes. The refusal is looked up only where there is one.
pub fn forward_from(bytes: &[u8], j: Joints, tool_length: f64) -> Result<ToolPose, Refusal>
    ensures { result ≡ S.forward_read (read_chain bytes.now) j tool_length }
{
    match reached_from(bytes, j, tool_length) {
        Some(reached) => posed(reached),
        None => refused_read(read_chain(bytes), j, tool_length),
    }
}

// How the position turns a rotary, from the turn by which forward moves it.
fn swing_from(carrier: Carrier, back: Turn) -> Turn
    ensures { result ≡ S.swing_from carrier back }
{
    match carrier {
        Carrier::Table => back.turned_back(),
        Carrier::Head => Turn::still(),
    }
}

// The tables forth, from `turns_of` at the same angles, with no sine or cosine made anew.
#[tactic(auto, unfolding(crate::specs::Forward::forth_from))]
pub fn forth_from(p: Prepared, back: Turns) -> Turns
    ensures { result ≡ S.forth_from p back }
{
    let first = swing_from(p.first.carrier, back.first);
    let second = p
        .second
        .map_or(Turn::still(), |s| swing_from(s.carrier, back.second));
    Turns { first, second }
}
