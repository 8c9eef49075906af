// The bytes of a model: links to the end, each of a name, a carrier, a kind and 8 numbers.
// A breach is Malformed with the offset of the first bad field.
// A link's offsets are taken before they are known to lie within the bytes.
ghost use Rattle.std.specs.Prelude.{◌+◌, ◌^◌, ◌≤◌, ◌<◌, ◌≡◌, length};
ghost use Rattle.std.specs.Iterator.{YieldsFirst, item_count};
ghost use Rattle.model.specs.Model as S;

use crate::{Link, LinkIter};
use chain::{demand, spare, u16_at};
use refusal::{Cause, Refusal};

// The link that starts there, whole or not.
#[tactic(auto, unfolding(crate::specs::Model::link_at))]
pub fn link_at(bytes: &[u8], at: usize) -> Link
    requires { at ≤ length bytes.now }
    ensures { (result ≡ S.link_at bytes.now at) × (result.name ≡ at) × (result.carrier ≤ at + 65537) × (result.kind ≤ at + 131074) × (at < result.end) }
{
    let carrier = at + 2 + u16_at(bytes, at) as usize;
    let kind = carrier + 2 + u16_at(bytes, carrier) as usize;
    Link {
        name: at,
        carrier,
        kind,
        end: kind + 65,
    }
}

impl Iterator for LinkIter<'_> {
    type Item = Link;

    ghost next_gives = { YieldsFirst (λ s. S.links s.bytes.now s.at s.to) };

    ghost remaining = { item_count (λ s. S.links s.bytes.now s.at s.to) };

    fn next(&mut self) -> Option<Link> {
        if self.to <= self.at {
            return None;
        }
        let link = link_at(self.bytes, self.at);
        self.at = link.end;
        Some(link)
    }
}

// Those that start before an offset.
pub fn links_before(bytes: &[u8], to: usize) -> LinkIter<'_>
    requires { to ≤ length bytes.now }
    ensures { S.links result.bytes.now result.at result.to ≡ S.links bytes.now 0 to }
{
    LinkIter { bytes, at: 0, to }
}

// All of them.
pub fn links_in(bytes: &[u8]) -> LinkIter<'_>
    ensures { S.links result.bytes.now result.at result.to ≡ S.links_of bytes.now }
{
    links_before(bytes, bytes.len())
}

// A box or a cylinder.
#[tactic(auto, unfolding(crate::specs::Model::kind_good))]
fn kind_good(bytes: &[u8], kind: usize) -> bool
    ensures { result ≡ S.kind_good bytes.now kind }
{
    bytes.get(kind).is_some_and(|byte| *byte < 2)
}

// The bound here, in `whole_vector` and in `last_number` is of sums that the refusals say: a test of `at + 8` stands
// beside `(at + 8) as u64`, and `bytes.get(at..)` here would leave the bound there.
#[tactic(auto, unfolding(crate::specs::Model::whole_number))]
fn whole_number(bytes: &[u8], at: usize) -> bool
    requires { at + 8 < 2 ^ 64 }
    ensures { result ≡ S.whole_number bytes.now at }
{
    at + 8 <= bytes.len()
}

#[tactic(auto, unfolding(crate::specs::Model::whole_vector))]
fn whole_vector(bytes: &[u8], at: usize) -> Result<(), Refusal>
    requires { at + 24 < 2 ^ 64 }
    ensures { result ≡ S.whole_vector bytes.now at }
{
    demand(whole_number(bytes, at), Cause::Malformed, at as u64)?;
    demand(
        whole_number(bytes, at + 8),
        Cause::Malformed,
        (at + 8) as u64,
    )?;
    demand(
        whole_number(bytes, at + 16),
        Cause::Malformed,
        (at + 16) as u64,
    )
}

// One of the last two numbers, which a box does not use.
#[tactic(auto, unfolding(crate::specs::Model::last_number, crate::specs::Model::whole_number))]
fn last_number(bytes: &[u8], kind: usize, at: usize) -> bool
    requires { at + 8 < 2 ^ 64 }
    ensures { result ≡ S.last_number bytes.now kind at }
{
    whole_number(bytes, at) && spare(bytes, kind, at)
}

#[tactic(auto, unfolding(crate::specs::Model::number_fields))]
fn number_fields(bytes: &[u8], link: Link) -> Result<(), Refusal>
    ensures { result ≡ S.number_fields bytes.now link.kind }
{
    let kind = link.kind;
    whole_vector(bytes, kind + 1)?;
    whole_vector(bytes, kind + 25)?;
    demand(
        last_number(bytes, kind, kind + 49),
        Cause::Malformed,
        (kind + 49) as u64,
    )?;
    demand(
        last_number(bytes, kind, kind + 57),
        Cause::Malformed,
        (kind + 57) as u64,
    )
}

// What the bytes of a link must be. The bytes and the link are two: the bytes are one for a model, and a struct of both
// would be made for each link to call this, `LinkIn { bytes, link }.fields()`.
#[tactic(auto, unfolding(crate::specs::Model::link_fields))]
pub fn link_fields(bytes: &[u8], link: Link) -> Result<(), Refusal>
    ensures { result ≡ S.link_fields bytes.now link }
{
    demand(
        link.carrier <= bytes.len(),
        Cause::Malformed,
        link.name as u64,
    )?;
    demand(
        link.kind <= bytes.len(),
        Cause::Malformed,
        link.carrier as u64,
    )?;
    demand(
        kind_good(bytes, link.kind),
        Cause::Malformed,
        link.kind as u64,
    )?;
    number_fields(bytes, link)
}

// The link that starts there, or its first breach.
#[tactic(auto, unfolding(crate::specs::Model::read_link))]
pub fn read_link(bytes: &[u8], at: usize) -> Result<Link, Refusal>
    requires { at ≤ length bytes.now }
    ensures { result ≡ S.read_link bytes.now at }
{
    let link = link_at(bytes, at);
    link_fields(bytes, link)?;
    Ok(link)
}

// The first breach of the bytes, link by link.
pub fn read_model(bytes: &[u8]) -> Result<(), Refusal>
    ensures { result ≡ S.model_fields bytes.now }
{
    for link in links_in(bytes) {
        link_fields(bytes, link)?;
    }
    Ok(())
}

pub fn count_links(bytes: &[u8]) -> usize
    ensures { result ≡ length (S.links_of bytes.now) }
{
    links_in(bytes).count()
}
