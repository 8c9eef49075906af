// Quotas by shop: inserted poses that 32 shops buy in advance. The balances are 32 lent whole numbers; a grant adds to
// one, and a division takes its reported count from one.
#![tactic(auto)]

mod charging;
mod granting;

pub use charging::{divide_for, settle};
pub use granting::{grant, shop_check};
