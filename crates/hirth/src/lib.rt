// Hirth tables, whose teeth stand half a degree apart. A solution that `choose` gives goes to its nearest teeth, and
// its position is worked out again with sines and cosines from a table.
#![tactic(auto)]

mod profile;
mod snapping;
mod teeth;
mod turning;

pub use profile::choose_tooth;

// The sine and the cosine of a whole number of half degrees from 0 to 90 degrees, each times 2^52.
#[derive(Clone, Copy)]
struct Entries {
    sine: u64,
    cosine: u64,
}
