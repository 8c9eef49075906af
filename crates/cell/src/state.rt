// The lent state: whether it is one, and the tolerances that a path is divided by.
ghost use Rattle.std.specs.Prelude.{◌≡◌, length};
ghost use Rattle.cell.specs.State as S;

use crate::{COUNT_AT, MOST_PATHS, NUMBERS, WORDS};
use middle::Tolerances;

// The dispatcher divides by the test at the middle alone.
pub fn tolerances(chord: f64, axis: f64) -> Tolerances
    ensures { result ≡ S.tolerances chord axis }
{
    Tolerances {
        chord,
        axis,
        strict: false,
    }
}

// Both parts of the state have their lengths.
#[tactic(auto, unfolding(crate::specs::State::state_long))]
pub fn state_long(words: &[u64], numbers: &[f64]) -> bool
    ensures { result ≡ S.state_long words.now numbers.now }
{
    words.len() == WORDS && numbers.len() == NUMBERS
}

// How many paths wait.
#[tactic(auto, unfolding(crate::specs::State::count_in))]
pub fn count_in(words: &[u64]) -> usize
    requires { length words.now ≡ 145 }
    ensures { result ≡ S.count_in words.now }
{
    words[COUNT_AT] as usize
}

#[tactic(auto, unfolding(crate::specs::State::state_good))]
pub fn state_good(words: &[u64], numbers: &[f64]) -> bool
    ensures { result ≡ S.state_good words.now numbers.now }
{
    state_long(words, numbers) && count_in(words) <= MOST_PATHS
}
