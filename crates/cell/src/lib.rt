// The dispatcher of a cell: up to 16 paths that are divided side by side, 64 tests in turn.
// Its state is lent: 145 words, nine for each path in the order of waiting and last how many wait; and 368 numbers, 23
// for each path. All zero is empty. No call asks anything of what it is lent: a wrong state is refused or harmless.
#![tactic(auto)]

mod admitting;
mod asking;
mod clearing;
mod coding;
mod freeing;
mod state;
mod turning;

pub use admitting::{admit, state_check};
pub use asking::{count, next};
use chain::Prepared;
use turn::{Machine, Stop};
pub use turning::turn;

// How many words and numbers the state has.
pub const WORDS: usize = 145;

pub const NUMBERS: usize = 368;
// The last word says how many paths wait, and so many may.
const COUNT_AT: usize = 144;

const MOST_PATHS: usize = 16;

// A path that waits: the lengths of its outputs, its chain, its two tolerances, and its machine.
#[derive(Clone, Copy)]
pub struct Entry {
    pub room_poses: usize,
    pub room_joints: usize,
    pub chain: Prepared,
    pub chord: f64,
    pub axis: f64,
    pub machine: Machine,
}

// What 64 tests leave: a machine that goes on, or an end.
#[derive(Clone, Copy)]
pub enum Outcome {
    Still(Machine),
    Over(Result<u64, Stop>),
}

// The path that a turn served, by its number, and what its tests left.
#[derive(Clone, Copy)]
pub struct Served {
    pub path: u64,
    pub outcome: Outcome,
}
