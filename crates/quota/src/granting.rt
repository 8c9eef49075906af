// The check of a shop and its balances, and a grant.
ghost use Rattle.std.specs.Prelude.{◌+◌, ◌≡◌, leb};
ghost use Rattle.quota.specs.Quota as S;
ghost use Rattle.quota.specs.Calls.{Grant, after};

use chain::demand;
use refusal::{Cause, Refusal};

// Shops are numbered from 0.
const SHOPS: u64 = 32;
// A balance may come to this, and not above.
const MOST: u64 = 1_000_000_000;

// The shop is known, and there is a balance for each.
#[tactic(auto, unfolding(crate::specs::Quota::shop_check))]
pub fn shop_check(balances: usize, shop: u64) -> Result<(), Refusal>
    ensures { result ≡ S.shop_check balances shop }
{
    demand(shop < SHOPS, Cause::UnknownShop, 0)?;
    demand(balances as u64 == SHOPS, Cause::LengthsDiffer, 0)
}

// Whether the balance stays within the limit.
fn room(balance: u64, amount: u64) -> bool
    ensures { result ≡ leb (balance + amount) S.most_balance }
{
    balance.checked_add(amount).is_some_and(|sum| sum <= MOST)
}

// The amount added to the balance of the shop.
pub fn grant(balances: &mut [u64], shop: u64, amount: u64) -> Result<(), Refusal>
    ensures answer { result ≡ S.grant_check balances.old shop amount }
    ensures balances { balances.new ≡ after balances.old (Grant shop amount) }
{
    shop_check(balances.len(), shop)?;
    let i = shop as usize;
    let balance = balances[i];
    demand(room(balance, amount), Cause::TooLarge, 0)?;
    balances[i] = balance + amount;
    Ok(())
}
