// What carrier bytes name: one lookup, for the links of a model and for the carrier that a caller asks for.
ghost use Rattle.std.specs.Prelude.{◌≡◌};
ghost use Rattle.model.specs.Carrier as S;

use crate::LinkKind;
use chain::Kinematics;

#[tactic(auto, unfolding(crate::specs::Carrier::rotary_named))]
fn rotary_named(k: &Kinematics, letter: u8) -> LinkKind
    ensures { result ≡ S.rotary_named k.now letter }
{
    if k.first.letter == letter {
        return LinkKind::Rotary(0);
    }
    if k.second_rotary().is_some_and(|s| s.letter == letter) {
        return LinkKind::Rotary(1);
    }
    LinkKind::Unknown
}

// The bytes base, table or head, or one letter that the chain has. The letters of a checked chain are capitals. No
// `match` with the texts in its arms: tried, and the last arm is reached in 15 ways, where the last `else` is in two,
// each a goal of its own. The search proves none of the 13 that it was tried on.
pub fn carrier_kind(k: &Kinematics, carrier: &[u8]) -> LinkKind
    ensures { result ≡ S.carrier_kind k.now carrier.now }
{
    if carrier == b"base".as_slice() {
        LinkKind::Base
    } else if carrier == b"table".as_slice() {
        LinkKind::Table
    } else if carrier == b"head".as_slice() {
        LinkKind::Head
    } else if let [letter] = carrier {
        rotary_named(k, *letter)
    } else {
        LinkKind::Unknown
    }
}

pub fn known(kind: LinkKind) -> bool
    ensures { result ≡ S.known kind }
{
    !matches!(kind, LinkKind::Unknown)
}
