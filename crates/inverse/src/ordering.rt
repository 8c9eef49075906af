// The order of the solutions, and one more put in its place: by the size of the first angle, then the first angle, then
// the second, each in totalOrder. Of two that tie the earlier stays first.
ghost use Rattle.std.specs.Prelude.{◌+◌, ◌≤◌, ◌<◌, ◌≡◌, List, [], ◌∷◌, ◌++◌, length, take, drop};
ghost use Rattle.std.specs.List.{position_or_len};
ghost use Rattle.inverse.specs.Solutions as S;

use crate::SolutionList;
use chain::Joints;
use std::cmp::Ordering;

// How j and k stand to one another.
pub fn compare(j: Joints, k: Joints) -> Ordering
    ensures { result ≡ S.compare j k }
{
    float::total_cmp(float::size(j.a0), float::size(k.a0))
        .then_with(|| float::total_cmp(j.a0, k.a0))
        .then_with(|| float::total_cmp(j.a1, k.a1))
}

// Whether j stands before k.
pub fn precedes(j: Joints, k: Joints) -> bool
    ensures { result ≡ S.precedes j k }
{
    compare(j, k).is_lt()
}

// How many stand before the first that j precedes. No `partition_point`: what it answers is known of a list in order
// alone, which each caller would have to show; here it is known of every list, and 50 at most are looked at.
fn place_of(solutions: &[Joints], j: Joints) -> usize
    ensures place { result ≡ position_or_len (S.precedes j) solutions.now }
    ensures within { result ≤ length solutions.now }
{
    solutions.iter().take_while(|k| !precedes(j, **k)).count()
}

// The last element to a place before, or at, its own, and those behind that place one further on. `insert` of the kit's
// list does the same by a turn of a part, for which the archive asks the C library for `memmove`.
fn bring_last(list: &mut [Joints], place: usize, last: usize)
    requires { (place ≤ last) × (length list.old ≡ last + 1) }
    ensures count { length list.new ≡ length list.old }
    ensures at_place { (front : List Joints) (j : Joints) → list.old ≡ front ++ j ∷ [] → list.new ≡ take place front ++ j ∷ drop place front }
{
    let j = list[last];
    list.copy_within(place..last, place + 1);
    list[place] = j;
}

// j before the first that it precedes.
pub fn insert(solutions: &mut SolutionList, j: Joints)
    requires { length solutions.old.items < 50 }
    ensures list { solutions.new.items ≡ S.insert solutions.old.items j }
    ensures count { length solutions.new.items ≡ length solutions.old.items + 1 }
{
    let place = place_of(solutions, j);
    let last = solutions.len();
    solutions.push(j);
    bring_last(solutions, place, last);
}
