// Zero from an index on, in lent words and numbers. Only what is something else is stored: of `fill`, and of a loop that
// stores everywhere, the compiler makes a `memset` of the C library.
ghost use Rattle.std.specs.Prelude.{◌≤◌, ◌≡◌, true, length, take};
ghost use Rattle.float.specs.Helpers.{nought};
ghost use Rattle.lists.specs.Padding.{padded};

use std::num::f64_to_bits_with_nan;

// By the bits: -0.0 is something else.
fn is_nought(x: f64) -> bool
    ensures { result ≡ true → x ≡ nought }
{
    f64_to_bits_with_nan(x) == 0
}

pub fn clear_words(words: &mut [u64], from: usize)
    requires { from ≤ length words.old }
    ensures { words.new ≡ padded (length words.old) 0 (take from words.old) }
{
    for i in from..words.len() {
        if words[i] != 0 {
            words[i] = 0;
        }
    }
}

pub fn clear_numbers(numbers: &mut [f64], from: usize)
    requires { from ≤ length numbers.old }
    ensures { numbers.new ≡ padded (length numbers.old) nought (take from numbers.old) }
{
    for i in from..numbers.len() {
        if !is_nought(numbers[i]) {
            numbers[i] = 0.0;
        }
    }
}
