// The rotary chain: one or two rotaries and the spindle, its bytes, its checks, and the forward map (impl Kinematics of
// the Rust). A chain goes in by reference: by value each call would copy its 208 bytes. What computes is total; what
// refuses is one list of checks for each call (specs/Check.antt).
#![tactic(auto)]

ghost use Rattle.std.specs.Prelude.{◌+◌, ◌*◌, ◌≤◌, length};

mod angles;
mod bytes_at;
mod chain_bytes;
mod checks;
mod forward_map;
mod prepare_chain;
mod ready_chain;

pub use bytes_at::{byte_at, number_at, number_of, spare, u16_at, vector_at, word_at};
pub use chain_bytes::{no_rotary, read_chain, read_chain_into, rotary_at, rotary_fields, zeros};
pub use checks::{
    all_within, chain_check, chain_sizes, chain_within, demand, has_direction, joints_finite,
    joints_within, known_letter, one_or_two, within,
};
pub use forward_map::{
    carried, forth_from, forward, forward_core, forward_from, head_point, head_vector, length_good,
    pose_at, position, table_point, table_vector, turns_by, turns_of,
};
use geometry::{Turn, Vec3};
pub use prepare_chain::{chain_fits, prepare};
use refusal::Refusal;

// Which slide carries a rotary: a table turns the work, a head the tool.
#[derive(Clone, Copy, Default)]
pub enum Carrier {
    #[default]
    Table,
    Head,
}

// Travel limits in degrees, both ends within.
#[derive(Clone, Copy)]
pub struct RotaryLimits {
    pub min: f64,
    pub max: f64,
}

// A pivot is a point on the axis: of a table in machine coordinates at zero angles, of a head relative to the gauge
// point at zero head angles. The rest is the angle at which the cable hangs free: cable turns are counted from it, and
// nothing else reads it. The letter is the byte of the format: any byte may stand there for `chain_check` to refuse.
#[derive(Clone, Copy, Default)]
pub struct RotaryJoint {
    pub letter: u8,
    pub carrier: Carrier,
    pub limits: Option<RotaryLimits>,
    pub axis: Vec3,
    pub pivot: Vec3,
    pub rest: f64,
}

// Outer joints first within each carrier. `second` is read only where `count` is 2. It is no Option: `chain_check` and
// all that goes by it take any count, and refuse what is neither one nor two.
#[derive(Clone, Copy, Default)]
pub struct Kinematics {
    pub count: u8,
    pub first: RotaryJoint,
    pub second: RotaryJoint,
    pub spindle_axis: Vec3,
}

// The bytes of a chain of one or two rotaries, all of them there; a rotary's record has w bytes. A number, where job
// has an enum: it is added and multiplied (`8 + w`, `32 + w * count`) or handed on to the public `rotary_at`, which
// takes any number from 72 on, and an enum would be `w.bytes()` in each.
#[derive(Clone, Copy)]
struct ChainBytes<'a> {
    bytes: &'a [u8],
    w: usize,
    count: u8,
    ghost whole: { (1 ≤ count) × (72 ≤ w) × (32 + w * count ≤ length bytes.now) },
}

// The gauge point's position, and an angle for each rotary, in degrees.
#[derive(Clone, Copy, Default)]
pub struct Joints {
    pub xyz: Vec3,
    pub a0: f64,
    pub a1: f64,
}

// The tool's tip, and its axis from the tip toward the spindle, in the part frame.
#[derive(Clone, Copy)]
pub struct ToolPose {
    pub tip: Vec3,
    pub axis: Vec3,
}

// A rotary with its unit axis.
#[derive(Clone, Copy)]
pub struct Spin {
    pub carrier: Carrier,
    pub axis: Vec3,
    pub pivot: Vec3,
}

// A checked chain with every axis normalised, once for a call.
#[derive(Clone, Copy)]
pub struct Prepared {
    pub first: Spin,
    pub second: Option<Spin>,
    pub spindle: Vec3,
}

// For each rotary its turn: by which `forward` moves it, a head forth, a table back (turns_of); or a table forth, as
// the position needs it (forth_from). Where there is no second rotary its turn stands still: an Option would be taken
// apart beside that of `Prepared`, which says already whether there is one.
#[derive(Clone, Copy)]
pub struct Turns {
    pub first: Turn,
    pub second: Turn,
}
