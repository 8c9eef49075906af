// The machine model: links of solids, each named and carried by a part of the chain, read from bytes that are lent; its
// check, and where a link stands at given joints (check_model, link_world and link_in_part of the Rust). A model stays
// in its bytes: a link is known by where its parts stand there.
#![tactic(auto)]

ghost use Rattle.std.specs.Prelude.{◌+◌, ◌≤◌, length};

mod carriers;
mod link_frame;
mod link_solid;
mod model_bytes;
mod model_check;
mod texts;

pub use carriers::carrier_kind;
use chain::Kinematics;
use geometry::{Rigid, Vec3};
pub use link_frame::{frame_of, turns_forth};
pub use link_solid::solid_at;
pub use model_bytes::{count_links, link_at, links_in, read_link, read_model};
use refusal::Refusal;
pub use texts::text;

// A machine as the calls of a model take it: the name and the numbers of its chain, and the bytes of its model.
#[derive(Clone, Copy)]
pub struct MachineModel<'a> {
    pub name: &'a [u8],
    pub chain: Kinematics,
    pub bytes: &'a [u8],
}

// Where a link stands: the offsets of its name's length, of its carrier's length, of its kind, and past it. They are no
// slices: a link may reach past the bytes, and a breach is told by the offset of its field.
#[derive(Clone, Copy)]
pub struct Link {
    pub name: usize,
    pub carrier: usize,
    pub kind: usize,
    pub end: usize,
    ghost in_order: { (name + 2 ≤ carrier) × (carrier + 2 ≤ kind) × (kind + 65 ≤ end) },
}

// The links that start from an offset on and before another, one behind the other.
#[derive(Drop)]
pub struct LinkIter<'a> {
    bytes: &'a [u8],
    at: usize,
    to: usize,
    ghost within: { to ≤ length bytes.now },
}

#[derive(Clone, Copy)]
pub enum LinkSolid {
    Box {
        min: Vec3,
        max: Vec3,
    },
    Cylinder {
        base: Vec3,
        axis: Vec3,
        radius: f64,
        length: f64,
    },
}

// What carrier bytes name: the base, all tables, all heads, or the rotary at an index.
#[derive(Clone, Copy, Default, PartialEq, Eq)]
pub enum LinkKind {
    #[default]
    Base,
    Table,
    Head,
    // 0 is the first. A number, as in the definitions (`rotary_at_index p i`, `through p i`), which hold of every one:
    // over two variants they would be of another type.
    Rotary(u8),
    // Nothing of the chain. With an `Option<LinkKind>` the public `frame_of`, which answers for this kind too, would
    // take one and match `None` where it matches this, and so would the definition `carrier_kind`.
    Unknown,
}
