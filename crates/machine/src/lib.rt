// The machine that halves a path in two lent outputs, turn after turn (crate turn), until no two neighbours divide; and
// one pair divided by it, after others. It is document 01's halving (crate halving) over the test and the midpoint of
// crate middle. Below the calls that check what they are lent, so that a wrong machine is refused without the price
// list's proofs.
#![tactic(auto)]

mod dividing;
mod filling;

pub use dividing::{close, divide_given, divide_solved};
pub use filling::{fill, fill_pair};
use middle::Tolerances;

// What the pairs of one path share: the poses inserted so far, and the tolerances (Subdiv of the Rust).
#[derive(Clone, Copy)]
pub struct Subdiv {
    pub inserted: u64,
    pub tol: Tolerances,
}
