// Where a link stands at given joints: in the machine frame, and in the part frame. A chain runs from its inner joint
// outwards, each rotary turned by its angle.
ghost use Rattle.std.specs.Prelude.{◌≡◌};
ghost use Rattle.geometry.specs.Rigid.{from_axes, identity};
ghost use Rattle.chain.specs.Forward.{carried};
ghost use Rattle.chain.specs.Prepared.{prepared};
ghost use Rattle.model.specs.Carrier.{carrier_kind};
ghost use Rattle.model.specs.Frame as S;

use crate::carriers::{carrier_kind, known};
use crate::{LinkKind, MachineModel};
use chain::{
    Carrier, Joints, Kinematics, Prepared, Spin, Turns, carried, chain_within, demand, head_point,
    head_vector, joints_finite, joints_within, prepare, table_point, table_vector,
};
use geometry::{Rigid, Turn, Vec3};
use refusal::{Cause, Refusal};

// Each rotary forth, by its angle: two numbers, as with `turns_by` of crate chain. Each is of one rotary, and a
// `Joints` would hand on a position that no turn reads.
#[tactic(auto, unfolding(crate::specs::Frame::turns_forth))]
pub fn turns_forth(a0: f64, a1: f64) -> Turns
    ensures { result ≡ S.turns_forth a0 a1 }
{
    let first = Turn::of(a0);
    let second = Turn::of(a1);
    Turns { first, second }
}

// A chain and its turns are two parameters, as in crate chain, to whose functions they go on: of a struct of both
// `table_frame(part, turns)` would be `Turned { p: &part, turns: &turns }.table_frame()`.
// A frame with that origin, and the axes carried along: `turned` is how one rotary takes a direction along, of a table
// or of a head.
fn carried_frame<F: Fn(Spin, Turn, Vec3) -> Vec3 + Copy>(
    p: Prepared,
    turns: Turns,
    origin: Vec3,
    turned: F,
) -> Rigid
    requires { F.IsAlwaysCallable turned }
    ensures { (f : Spin → Turn → Vec3 → Vec3) → ((s : Spin) (t : Turn) (u : Vec3) (r : Vec3) → F.post turned s t u r → r ≡ f s t u) → result ≡ from_axes origin (carried f p turns identity.axis_x) (carried f p turns identity.axis_y) (carried f p turns identity.axis_z) }
{
    let still = Rigid::identity();
    let axis_x = carried(p, turns, still.axis_x, turned);
    let axis_y = carried(p, turns, still.axis_y, turned);
    let axis_z = carried(p, turns, still.axis_z, turned);
    Rigid::from_axes(origin, axis_x, axis_y, axis_z)
}

// The frame that the tables carry: rigid_from_spins of the table chain. By closures, here and for the heads: where a
// function of crate chain is itself handed on, its contract has no file for this crate, and nothing is proved of it.
#[tactic(auto, unfolding(crate::specs::Frame::table_frame))]
fn table_frame(p: Prepared, turns: Turns) -> Rigid
    ensures { result ≡ S.table_frame p turns }
{
    let point = |s: Spin, turn: Turn, v: Vec3| table_point(s, turn, v);
    let vector = |s: Spin, turn: Turn, v: Vec3| table_vector(s, turn, v);
    let origin = carried(p, turns, Rigid::identity().origin, point);
    carried_frame(p, turns, origin, vector)
}

// The frame that the heads carry, moved with the gauge point.
#[tactic(auto, unfolding(crate::specs::Frame::head_frame))]
fn head_frame(p: Prepared, turns: Turns, xyz: Vec3) -> Rigid
    ensures { result ≡ S.head_frame p turns xyz }
{
    let point = |s: Spin, turn: Turn, v: Vec3| head_point(s, turn, v);
    let vector = |s: Spin, turn: Turn, v: Vec3| head_vector(s, turn, v);
    let origin = carried(p, turns, Rigid::identity().origin, point) + xyz;
    carried_frame(p, turns, origin, vector)
}

#[tactic(auto, unfolding(crate::specs::Frame::rotary_at_index))]
fn rotary_at_index(p: Prepared, index: u8) -> Option<Spin>
    ensures { result ≡ S.rotary_at_index p index }
{
    if index == 0 {
        return Some(p.first);
    }
    p.second
}

// The rotaries up to and including that one.
#[tactic(auto, unfolding(crate::specs::Frame::through))]
fn through(p: Prepared, index: u8) -> Prepared
    ensures { result ≡ S.through p index }
{
    if index == 0 {
        return Prepared { second: None, ..p };
    }
    p
}

// The frame of one rotary, with all that carry it.
#[tactic(auto, unfolding(crate::specs::Frame::rotary_frame))]
fn rotary_frame(p: Prepared, turns: Turns, xyz: Vec3, index: u8) -> Rigid
    ensures { result ≡ S.rotary_frame p turns xyz index }
{
    let Some(spin) = rotary_at_index(p, index) else {
        return Rigid::identity();
    };
    let part = through(p, index);
    match spin.carrier {
        Carrier::Table => table_frame(part, turns),
        Carrier::Head => head_frame(part, turns, xyz),
    }
}

pub fn frame_of(p: Prepared, turns: Turns, xyz: Vec3, kind: LinkKind) -> Rigid
    ensures { result ≡ S.frame_of p turns xyz kind }
{
    match kind {
        LinkKind::Base | LinkKind::Unknown => Rigid::identity(),
        LinkKind::Table => table_frame(p, turns),
        LinkKind::Head => head_frame(p, turns, xyz),
        LinkKind::Rotary(index) => rotary_frame(p, turns, xyz, index),
    }
}

#[tactic(auto, unfolding(crate::specs::Frame::frame_sizes))]
fn frame_sizes(k: &Kinematics, j: Joints) -> bool
    ensures { result ≡ S.frame_sizes k.now j }
{
    joints_within(j) && chain_within(k)
}

impl MachineModel<'_> {
    #[tactic(auto, unfolding(crate::specs::Frame::frame_check))]
    fn frame_check(&self, j: Joints, kind: LinkKind) -> Result<(), Refusal>
        ensures { result ≡ S.frame_check self.now.name.now self.now.chain self.now.bytes.now j kind }
    {
        self.full_check()?;
        demand(joints_finite(j), Cause::NotFinite, 0)?;
        demand(known(kind), Cause::CarrierUnknown, 0)?;
        demand(frame_sizes(&self.chain, j), Cause::TooLarge, 0)
    }

    // What `frame` makes of the chain turned to the joints and of what the carrier bytes name, or the first refusal.
    fn placed<F: FnOnce(Prepared, Turns, LinkKind) -> Rigid>(
        &self,
        frame: F,
        j: Joints,
        carrier: &[u8],
    ) -> Result<Rigid, Refusal>
        requires { F.IsAlwaysCallable frame }
        ensures { let m = self.now in (f : Prepared → Turns → LinkKind → Rigid) → ((p : Prepared) (t : Turns) (kind : LinkKind) (r : Rigid) → F.post frame p t kind r → r ≡ f p t kind) → result ≡ S.placed_unless (S.frame_check m.name.now m.chain m.bytes.now j (carrier_kind m.chain carrier.now)) (f (prepared m.chain) (S.turns_forth j.a0 j.a1) (carrier_kind m.chain carrier.now)) }
    {
        let kind = carrier_kind(&self.chain, carrier);
        self.frame_check(j, kind)?;
        let p = prepare(&self.chain);
        let turns = turns_forth(j.a0, j.a1);
        Ok(frame(p, turns, kind))
    }

    // The placement of what the carrier bytes name, in the machine frame, or the first refusal.
    #[tactic(auto, unfolding(crate::specs::Frame::link_world))]
    pub fn link_world(&self, j: Joints, carrier: &[u8]) -> Result<Rigid, Refusal>
        ensures { result ≡ S.link_world self.now.name.now self.now.chain self.now.bytes.now j carrier.now }
    {
        let in_machine = |p, turns, kind| frame_of(p, turns, j.xyz, kind);
        self.placed(in_machine, j, carrier)
    }

    // The same in the part frame, which rides on the tables.
    #[tactic(auto, unfolding(crate::specs::Frame::link_in_part))]
    pub fn link_in_part(&self, j: Joints, carrier: &[u8]) -> Result<Rigid, Refusal>
        ensures { result ≡ S.link_in_part self.now.name.now self.now.chain self.now.bytes.now j carrier.now }
    {
        let in_part = |p, turns, kind| {
            let part = table_frame(p, turns).inverse();
            part.compose(frame_of(p, turns, j.xyz, kind))
        };
        self.placed(in_part, j, carrier)
    }
}
