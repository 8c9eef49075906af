// The check of a model: its bytes whole, the chain's name, the chain, then link by link, and the sizes last.
ghost use Rattle.std.specs.Prelude.{◌≤◌, ◌≡◌, length};
ghost use Rattle.model.specs.ModelCheck as S;

use crate::carriers::{carrier_kind, known};
use crate::link_solid::good_solid_at;
use crate::model_bytes::{count_links, links_before, links_in, read_model};
use crate::{Link, MachineModel};
use chain::{chain_check, chain_sizes, demand};
use refusal::{Cause, Refusal};

// A name has 1 to 256 bytes.
#[tactic(auto, unfolding(crate::specs::ModelCheck::name_check))]
pub fn name_check(name: &[u8]) -> Result<(), Refusal>
    ensures { result ≡ S.name_check name.now }
{
    demand(!name.is_empty(), Cause::NameEmpty, 0)?;
    demand(name.len() <= 256, Cause::NameTooLong, 0)
}

#[tactic(auto, unfolding(crate::specs::ModelCheck::same_name))]
fn same_name(bytes: &[u8], left: Link, right: Link) -> bool
    ensures { result ≡ S.same_name bytes.now left right }
{
    left.name_in(bytes) == right.name_in(bytes)
}

// Whether an earlier link has the link's name.
fn named_before(bytes: &[u8], link: Link) -> bool
    requires { link.name ≤ length bytes.now }
    ensures { result ≡ S.named_before bytes.now link }
{
    links_before(bytes, link.name).any(|earlier| same_name(bytes, earlier, link))
}

impl MachineModel<'_> {
    // One link, whole.
    #[tactic(auto, unfolding(crate::specs::ModelCheck::link_check))]
    fn link_check(&self, link: Link, index: u64) -> Result<(), Refusal>
        requires { link.name ≤ length self.now.bytes.now }
        ensures { result ≡ S.link_check self.now.chain self.now.bytes.now link index }
    {
        let bytes = self.bytes;
        name_check(link.name_in(bytes))?;
        demand(!named_before(bytes, link), Cause::LinkNameTwice, index)?;
        let kind = carrier_kind(&self.chain, link.carrier_in(bytes));
        demand(known(kind), Cause::CarrierUnknown, index)?;
        demand(good_solid_at(bytes, link), Cause::SolidBad, index)
    }

    fn each_link(&self) -> Result<(), Refusal>
        ensures { result ≡ S.each_link self.now.chain self.now.bytes.now }
    {
        for (index, link) in links_in(self.bytes).enumerate() {
            self.link_check(link, index as u64)?;
        }
        Ok(())
    }

    // At most 64 links, each good.
    #[tactic(auto, unfolding(crate::specs::ModelCheck::links_check))]
    fn links_check(&self) -> Result<(), Refusal>
        ensures { result ≡ S.links_check self.now.chain self.now.bytes.now }
    {
        demand(count_links(self.bytes) <= 64, Cause::TooManyLinks, 0)?;
        self.each_link()
    }

    // The Rust's check, of name, chain and model, after the model's bytes are read.
    #[tactic(auto, unfolding(crate::specs::ModelCheck::full_check))]
    pub fn full_check(&self) -> Result<(), Refusal>
        ensures { result ≡ S.full_check self.now.name.now self.now.chain self.now.bytes.now }
    {
        read_model(self.bytes)?;
        name_check(self.name)?;
        chain_check(&self.chain)?;
        self.links_check()
    }

    // The same, and the sizes.
    #[tactic(auto, unfolding(crate::specs::ModelCheck::check_model))]
    pub fn check(&self) -> Result<(), Refusal>
        ensures { result ≡ S.check_model self.now.name.now self.now.chain self.now.bytes.now }
    {
        self.full_check()?;
        chain_sizes(&self.chain)
    }
}
