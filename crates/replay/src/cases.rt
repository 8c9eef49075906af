// A case in lent bytes: a header of ten u16, the lowest byte first, then six parts one after another, three of bytes
// and three of numbers, and last a chain or a job. Bytes past the end count as none, so that nothing here is refused.
use arrayvec::ArrayVec;
use chain::u16_at;
use std::num::f64_from_bits_with_nan;

const HEADER: usize = 20;

#[derive(Clone, Copy)]
pub struct Case<'a> {
    pub entry: u16,
    // The choice, the rotary, the index or how many bytes are lent for a job.
    pub which: u16,
    pub name: &'a [u8],
    pub model: &'a [u8],
    pub carrier: &'a [u8],
    pub first: &'a [[u8; 8]],
    pub second: &'a [[u8; 8]],
    pub singles: &'a [[u8; 8]],
    // How many numbers each of the two outputs has.
    pub room: usize,
    pub other_room: usize,
    pub chain_or_job: &'a [u8],
}

impl<'a> Case<'a> {
    pub fn read(bytes: &'a [u8]) -> Case<'a> {
        let (_, rest) = cut(bytes, HEADER);
        let (name, rest) = cut(rest, u16_at(bytes, 4) as usize);
        let (model, rest) = cut(rest, u16_at(bytes, 6) as usize);
        let (carrier, rest) = cut(rest, u16_at(bytes, 8) as usize);
        let (first, rest) = cut(rest, 8 * u16_at(bytes, 10) as usize);
        let (second, rest) = cut(rest, 8 * u16_at(bytes, 12) as usize);
        let (singles, rest) = cut(rest, 8 * u16_at(bytes, 14) as usize);
        Case {
            entry: u16_at(bytes, 0),
            which: u16_at(bytes, 2),
            name,
            model,
            carrier,
            first: in_words(first),
            second: in_words(second),
            singles: in_words(singles),
            room: u16_at(bytes, 16) as usize,
            other_room: u16_at(bytes, 18) as usize,
            chain_or_job: rest,
        }
    }

    // The number of a call that stands by itself, by its index among them; 0 past the end.
    pub fn single(&self, index: usize) -> f64 {
        self.singles.get(index).map_or(0.0, number)
    }
}

// So many bytes, and those behind them.
fn cut(bytes: &[u8], count: usize) -> (&[u8], &[u8]) {
    bytes.split_at(count.min(bytes.len()))
}

pub fn in_words(bytes: &[u8]) -> &[[u8; 8]] {
    bytes.as_chunks().0
}

pub fn whole_number(word: &[u8; 8]) -> u64 {
    u64::from_le_bytes(*word)
}

pub fn number(word: &[u8; 8]) -> f64 {
    f64_from_bits_with_nan(whole_number(word))
}

// What each word stands for, as many as there is room for.
pub fn read_each<T: Copy + Default, const N: usize, F: Fn(&[u8; 8]) -> T>(
    words: &[[u8; 8]],
    read: F,
) -> ArrayVec<T, N>
    requires { F.IsAlwaysCallable read }
{
    // What has no room is left out, and not told of. A closure, since of `map(read)` and `map(&read)` it was not proved
    // that `read` may be called at each word.
    let mut all = ArrayVec::new();
    let _ = all.extend(words.iter().map(|word| read(word)));
    all
}

// So many of the lent, or all where there are fewer.
pub fn lent<T>(all: &mut [T], asked: usize) -> &mut [T] {
    let n = asked.min(all.len());
    &mut all[..n]
}
