// The lists of this crate as values that are copied where they stand: a count and an array, with zeros past the count.
ghost use Rattle.std.specs.Prelude.{◌≤◌, ◌≡◌, length};
ghost use Rattle.lists.specs.Padding.{padded};
ghost use Rattle.inverse.specs.Copied as S;

use crate::{Angles, CandidateList, Candidates, PairList, Pairs, SolutionList, Solutions};
use chain::Joints;

// The items of a list, and `rest` past them.
fn in_array<T: Copy, const N: usize>(list: &[T], rest: T) -> [T; N]
    requires { length list.now ≤ N }
    ensures { result ≡ padded N rest list.now }
{
    let mut items = [rest; N];
    items[..list.len()].copy_from_slice(list);
    items
}

impl Candidates {
    pub fn of(list: &CandidateList) -> Candidates
        ensures value { result ≡ S.candidates_of list.now.items }
        ensures items { S.turned result ≡ list.now.items }
    {
        Candidates {
            count: list.len(),
            items: in_array(list.as_slice(), 0.0),
        }
    }
}

impl Pairs {
    pub fn of(list: &PairList) -> Pairs
        ensures value { result ≡ S.pairs_of list.now.items }
        ensures items { S.paired result ≡ list.now.items }
    {
        Pairs {
            count: list.len(),
            items: in_array(list.as_slice(), Angles::default()),
        }
    }
}

impl Solutions {
    pub fn of(list: &SolutionList) -> Solutions
        ensures value { result ≡ S.solutions_of list.now.items }
        ensures items { S.listed result ≡ list.now.items }
    {
        Solutions {
            count: list.len(),
            items: in_array(list.as_slice(), Joints::default()),
        }
    }
}
