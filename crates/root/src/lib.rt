// IEEE 754's square root, worked out over whole numbers, and the laws of its rounding. A crate of its own above float,
// whose short functions need none of its proofs.
#![tactic(auto)]

mod square_root;

pub use square_root::{quick_root, root};
