// Which path is served next, and a path's count so far.
ghost use Rattle.std.specs.Prelude.{◌*◌, ◌≤◌, ◌≡◌, length};
ghost use Rattle.cell.specs.Asking as S;

use crate::state::count_in;
use crate::{MOST_PATHS, WORDS};
use chain::demand;
use refusal::{Cause, Refusal};

#[tactic(auto, unfolding(crate::specs::Asking::words_good))]
fn words_good(words: &[u64]) -> bool
    ensures { result ≡ S.words_good words.now }
{
    words.len() == WORDS && count_in(words) <= MOST_PATHS
}

#[tactic(auto, unfolding(crate::specs::Asking::next_in))]
fn next_in(words: &[u64]) -> Option<u64>
    requires { length words.now ≡ 145 }
    ensures { result ≡ S.next_in words.now }
{
    if count_in(words) == 0 {
        return None;
    }
    Some(words[0])
}

// The number of the path served next, where one waits.
#[tactic(auto, unfolding(crate::specs::Asking::next_answer))]
pub fn next(words: &[u64]) -> Result<Option<u64>, Refusal>
    ensures { result ≡ S.next_answer words.now }
{
    demand(words_good(words), Cause::LengthsDiffer, 0)?;
    Ok(next_in(words))
}

// Of the first n entries.
pub fn count_among(words: &[u64], number: u64, n: usize) -> Option<u64>
    requires { n * 9 ≤ length words.now }
    ensures { result ≡ S.counts_from n words.now number }
{
    for i in 0..n {
        if words[i * 9] == number {
            return Some(words[i * 9 + 6]);
        }
    }
    None
}

// How many poses are inserted so far in the path of that number.
#[tactic(auto, unfolding(crate::specs::Asking::count_answer))]
pub fn count(words: &[u64], number: u64) -> Result<u64, Refusal>
    ensures { result ≡ S.count_answer words.now number }
{
    demand(words_good(words), Cause::NotAdmitted, 0)?;
    let n = count_in(words);
    count_among(words, number, n).ok_or(Refusal::new(Cause::NotAdmitted, 0))
}
