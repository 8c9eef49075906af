// A chain that a call serves, straight from its bytes with records of w bytes: every check of it is made, each axis is
// normalised once, and no chain goes from function to function. What refuses is looked up by the list of checks.
ghost use Rattle.std.specs.Prelude.{◌+◌, ◌*◌, ◌≤◌, ◌≡◌, true, length};
ghost use Rattle.chain.specs.Bytes.{byte_at};
ghost use Rattle.chain.specs.Check.{one_or_two};
ghost use Rattle.chain.specs.Ready as S;
ghost use Rattle.chain.specs.ReadySteps as Steps;

use crate::bytes_at::{byte_at, vector_at};
use crate::chain_bytes::{carrier_of, rest_at, rotary_fields, travel_at, zeros};
use crate::checks::{all_within, known_letter, one_or_two, other_letter, travel_good, within};
use crate::{ChainBytes, Spin};
use geometry::Vec3;

// A rotary, but for the direction of its axis. `earlier` is the letter of the rotary before it.
#[tactic(auto, unfolding(crate::specs::ReadySteps::record_good, crate::specs::ReadySteps::rotary_good, crate::specs::ChainBytes::rotary_at, crate::specs::Check::rotary_within))]
fn record_good(w: usize, bytes: &[u8], at: usize, earlier: Option<u8>) -> bool
    requires { (72 ≤ w) × (at + w ≤ length bytes.now) }
    ensures { result ≡ Steps.record_good w bytes.now at earlier }
{
    let letter = byte_at(bytes, at);
    rotary_fields(bytes, at).is_ok()
        && known_letter(letter)
        && other_letter(letter, earlier)
        && travel_good(travel_at(bytes, at))
        && all_within(vector_at(bytes, at + 32), 100000.0)
        && within(rest_at(w, bytes, at), 36000.0)
}

// The rotary whose record starts there, with its unit axis.
#[tactic(auto, unfolding(crate::specs::ReadySteps::spin_at))]
pub fn spin_at(bytes: &[u8], at: usize, axis: Vec3) -> Spin
    requires { at + 72 ≤ length bytes.now }
    ensures { result ≡ Steps.spin_at bytes.now at axis }
{
    Spin {
        carrier: carrier_of(byte_at(bytes, at + 1)),
        axis,
        pivot: vector_at(bytes, at + 32),
    }
}

impl ChainBytes<'_> {
    #[tactic(auto, unfolding(crate::specs::ReadySteps::first_good))]
    pub fn first_good(self) -> bool
        ensures { result ≡ Steps.first_good self.entry.w self.entry.bytes.now }
    {
        zeros(self.bytes, 1, 7).is_ok() && record_good(self.w, self.bytes, 8, None)
    }

    #[tactic(auto, unfolding(crate::specs::ReadySteps::second_good))]
    pub fn second_good(self) -> bool
        ensures { result ≡ Steps.second_good self.entry.w self.entry.bytes.now self.entry.count }
    {
        self.second().is_none_or(|at| record_good(
            self.w,
            self.bytes,
            at,
            Some(byte_at(self.bytes, 8)),
        ))
    }

    // The second rotary: `Some(None)` where there is none, `None` where its axis has no direction. An Option in
    // another, since the two part ways: `reached` leaves by `?` at the outer None, and `Prepared` takes the inner one.
    #[tactic(auto, unfolding(crate::specs::ReadySteps::directed_second))]
    pub fn directed_second(self) -> Option<Option<Spin>>
        ensures { result ≡ Steps.directed_second self.entry.w self.entry.bytes.now self.entry.count }
    {
        match self.second() {
            Some(at) => {
                let axis = geometry::unit_direction(vector_at(self.bytes, at + 8))?;
                Some(Some(spin_at(self.bytes, at, axis)))
            }
            None => Some(None),
        }
    }
}
