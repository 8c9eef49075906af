// One list stored in a part of another, element after element. `copy_from_slice` says no more, and has the archive ask
// the C library for `memmove`.
#![tactic(auto)]

ghost use Rattle.std.specs.Prelude.{◌+◌, ◌≤◌, ◌≡◌, length};
ghost use Rattle.storing.specs.Storing as S;

// Stores elements from an index on.
pub fn store<T: Copy>(to: &mut [T], at: usize, from: &[T])
    requires { at + length from.now ≤ length to.old }
    ensures { to.new ≡ S.stored_at to.old at from.now }
{
    for i in 0..from.len() {
        to[at + i] = from[i];
    }
}
