// The entries of a machine model: its check, and the frame of what a carrier names, in the machine and in the part.
// Chain and model are handed over as bytes; place and letter are written by every call.
ghost use Rattle.std.specs.Prelude.{◌≡◌, length};
ghost use Rattle.model.specs.Frame.{link_world, link_in_part};
ghost use Rattle.maztubel.specs.Lent as Lent;
ghost use Rattle.maztubel.specs.LinkEntries as S;
ghost use Rattle.maztubel.specs.Steps.{LinkAsked};

use crate::lent::{hand_back, put_vector};
use chain::{Joints, Kinematics, demand};
use geometry::Rigid;
use model::MachineModel;
use refusal::{Cause, Refusal};

pub fn maztubel_check_model(
    name: &[u8],
    chain: &[u8],
    model: &[u8],
    at: &mut u64,
    letter: &mut u8,
) -> u32
    ensures number { result ≡ Lent.number_in (S.check_model_of name.now chain.now model.now) }
    ensures place { at.new ≡ Lent.place_in (S.check_model_of name.now chain.now model.now) }
    ensures named { letter.new ≡ Lent.letter_in (S.check_model_of name.now chain.now model.now) }
{
    let checked = check_model(name, chain, model);
    hand_back(&checked, at, letter)
}

pub fn maztubel_link_world(
    name: &[u8],
    chain: &[u8],
    model: &[u8],
    joints: &[f64],
    carrier: &[u8],
    frame: &mut [f64],
    at: &mut u64,
    letter: &mut u8,
) -> u32
    ensures number { result ≡ Lent.number_in (S.link_of link_world name.now chain.now model.now joints.now carrier.now (length frame.old)) }
    ensures place { at.new ≡ Lent.place_in (S.link_of link_world name.now chain.now model.now joints.now carrier.now (length frame.old)) }
    ensures named { letter.new ≡ Lent.letter_in (S.link_of link_world name.now chain.now model.now joints.now carrier.now (length frame.old)) }
    ensures lent { frame.new ≡ S.frame_over (S.link_of link_world name.now chain.now model.now joints.now carrier.now (length frame.old)) frame.old }
{
    let room = frame.len();
    let bytes = model;
    let place = |chain, j| MachineModel { name, chain, bytes }.link_world(j, carrier);
    let answer = link_of(place, chain, joints, room);
    put_frame(answer, frame);
    hand_back(&answer, at, letter)
}

pub fn maztubel_link_in_part(
    name: &[u8],
    chain: &[u8],
    model: &[u8],
    joints: &[f64],
    carrier: &[u8],
    frame: &mut [f64],
    at: &mut u64,
    letter: &mut u8,
) -> u32
    ensures number { result ≡ Lent.number_in (S.link_of link_in_part name.now chain.now model.now joints.now carrier.now (length frame.old)) }
    ensures place { at.new ≡ Lent.place_in (S.link_of link_in_part name.now chain.now model.now joints.now carrier.now (length frame.old)) }
    ensures named { letter.new ≡ Lent.letter_in (S.link_of link_in_part name.now chain.now model.now joints.now carrier.now (length frame.old)) }
    ensures lent { frame.new ≡ S.frame_over (S.link_of link_in_part name.now chain.now model.now joints.now carrier.now (length frame.old)) frame.old }
{
    let room = frame.len();
    let bytes = model;
    let place = |chain, j| MachineModel { name, chain, bytes }.link_in_part(j, carrier);
    let answer = link_of(place, chain, joints, room);
    put_frame(answer, frame);
    hand_back(&answer, at, letter)
}

#[tactic(auto, unfolding(crate::specs::LinkEntries::check_model_of))]
fn check_model(name: &[u8], chain: &[u8], model: &[u8]) -> Result<(), Refusal>
    ensures { result ≡ S.check_model_of name.now chain.now model.now }
{
    let chain = chain::read_chain(chain)?;
    let machine = MachineModel {
        name,
        chain,
        bytes: model,
    };
    machine.check()
}

// The frame that `place` finds, of the chain and the joints that are lent, or the first refusal.
#[tactic(auto, unfolding(crate::specs::Lent::joints_in, turn::specs::Items::joints_in))]
fn link_of<F: FnOnce(Kinematics, Joints) -> Result<Rigid, Refusal>>(
    place: F,
    chain: &[u8],
    joints: &[f64],
    room: usize,
) -> Result<Rigid, Refusal>
    requires { F.IsAlwaysCallable place }
    ensures { LinkAsked (F.post place) chain.now joints.now room result }
{
    demand(joints.len() == 5 && room == 12, Cause::LengthsDiffer, 0)?;
    let k = chain::read_chain(chain)?;
    place(k, turn::joints_in(joints, 0))
}

// Writes a frame where there is one, and twelve numbers' room for it. `link_of` has tested the room: a `requires` in
// place of the second test would have both callers prove that a frame comes only with its room.
#[tactic(auto, using(crate::proofs::Written::frame_written))]
fn put_frame(answer: Result<Rigid, Refusal>, frame: &mut [f64])
    ensures { frame.new ≡ S.frame_over answer frame.old }
{
    match answer {
        Ok(r) if frame.len() == 12 => {
            put_vector(r.origin, frame, 0);
            put_vector(r.axis_x, frame, 3);
            put_vector(r.axis_y, frame, 6);
            put_vector(r.axis_z, frame, 9);
        }
        _ => {}
    }
}
