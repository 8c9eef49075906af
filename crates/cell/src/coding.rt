// The entry of a path in lent words and numbers.
ghost use Rattle.std.specs.Prelude.{◌+◌, ◌*◌, ◌≤◌, ◌≡◌, length};
ghost use Rattle.cell.specs.Coding as S;

use crate::Entry;
use chain::{Carrier, Prepared, Spin};
use geometry::Vec3;
use turn::Machine;

// ---- reading
#[tactic(auto, unfolding(crate::specs::Coding::carrier_in))]
fn carrier_in(word: u64) -> Carrier
    ensures { result ≡ S.carrier_in word }
{
    if word == 1 {
        Carrier::Head
    } else {
        Carrier::Table
    }
}

#[tactic(auto, unfolding(crate::specs::Coding::vec_in))]
fn vec_in(numbers: &[f64], at: usize) -> Vec3
    requires { at + 3 ≤ length numbers.now }
    ensures { result ≡ S.vec_in numbers.now at }
{
    Vec3 {
        x: numbers[at],
        y: numbers[at + 1],
        z: numbers[at + 2],
    }
}

#[tactic(auto, unfolding(crate::specs::Coding::spin_in))]
fn spin_in(word: u64, numbers: &[f64], at: usize) -> Spin
    requires { at + 6 ≤ length numbers.now }
    ensures { result ≡ S.spin_in word numbers.now at }
{
    Spin {
        carrier: carrier_in(word),
        axis: vec_in(numbers, at),
        pivot: vec_in(numbers, at + 3),
    }
}

#[tactic(auto, unfolding(crate::specs::Coding::second_in))]
fn second_in(word: u64, numbers: &[f64]) -> Option<Spin>
    requires { 23 ≤ length numbers.now }
    ensures { result ≡ S.second_in word numbers.now }
{
    if word <= 1 {
        return Some(spin_in(word, numbers, 6));
    }
    None
}

#[tactic(auto, unfolding(crate::specs::Coding::chain_in))]
fn chain_in(first: u64, second: u64, numbers: &[f64]) -> Prepared
    requires { 23 ≤ length numbers.now }
    ensures { result ≡ S.chain_in first second numbers.now }
{
    Prepared {
        first: spin_in(first, numbers, 0),
        second: second_in(second, numbers),
        spindle: vec_in(numbers, 12),
    }
}

#[tactic(auto, unfolding(crate::specs::Coding::machine_in))]
fn machine_in(words: &[u64], numbers: &[f64]) -> Machine
    requires { (9 ≤ length words.now) × (23 ≤ length numbers.now) }
    ensures { result ≡ S.machine_in words.now numbers.now }
{
    Machine {
        placed: words[3] as usize,
        waiting: words[4] as usize,
        inserted: words[6],
        given: words[5] as usize,
        left_axis: vec_in(numbers, 15),
        end_axis: vec_in(numbers, 18),
    }
}

// The path whose entry stands at the front.
#[tactic(auto, unfolding(crate::specs::Coding::path_in))]
pub fn path_in(words: &[u64], numbers: &[f64]) -> Entry
    requires { (9 ≤ length words.now) × (23 ≤ length numbers.now) }
    ensures { result ≡ S.path_in words.now numbers.now }
{
    Entry {
        room_poses: words[1] as usize,
        room_joints: words[2] as usize,
        chain: chain_in(words[7], words[8], numbers),
        chord: numbers[21],
        axis: numbers[22],
        machine: machine_in(words, numbers),
    }
}

// ---- writing
fn carrier_word(c: Carrier) -> u64
    ensures { result ≡ S.carrier_word c }
{
    match c {
        Carrier::Table => 0,
        Carrier::Head => 1,
    }
}

fn second_word(second: Option<Spin>) -> u64
    ensures { result ≡ S.second_word second }
{
    match second {
        None => 2,
        Some(s) => carrier_word(s.carrier),
    }
}

// What is stored of a second rotary: +0.0 where there is none.
fn second_stored(second: Option<Spin>) -> Spin
    ensures { result ≡ S.second_stored second }
{
    let nowhere = Vec3 {
        x: 0.0,
        y: 0.0,
        z: 0.0,
    };
    second.unwrap_or(Spin {
        carrier: Carrier::Table,
        axis: nowhere,
        pivot: nowhere,
    })
}

impl Entry {
    pub fn words(self, number: u64) -> [u64; 9]
        ensures { result ≡ S.words_of number self }
    {
        let m = self.machine;
        let first = carrier_word(self.chain.first.carrier);
        let second = second_word(self.chain.second);
        [
            number,
            self.room_poses as u64,
            self.room_joints as u64,
            m.placed as u64,
            m.waiting as u64,
            m.given as u64,
            m.inserted,
            first,
            second,
        ]
    }

    #[tactic(auto, unfolding(crate::specs::Coding::numbers_of))]
    pub fn numbers(self) -> [f64; 23]
        ensures { result ≡ S.numbers_of self }
    {
        let p = self.chain.first;
        let q = second_stored(self.chain.second);
        let spindle = self.chain.spindle;
        let left = self.machine.left_axis;
        let end = self.machine.end_axis;
        [
            p.axis.x, p.axis.y, p.axis.z, p.pivot.x, p.pivot.y, p.pivot.z, q.axis.x, q.axis.y, q
                .axis
                .z, q.pivot.x, q.pivot.y, q.pivot.z, spindle.x, spindle.y, spindle.z, left.x,
            left.y, left.z, end.x, end.y, end.z, self.chord, self.axis,
        ]
    }
}

// ---- lent lists
// Brings so many elements to the front, from the place w on. Two at a time: of one at a time, and of `copy_within`, the
// compiler makes a `memmove` of the C library.
pub fn bring_forward<T: Copy>(to: &mut [T], w: usize, count: usize)
    requires { count + w ≤ length to.old }
    ensures { to.new ≡ S.forward w count to.old }
{
    for i in 0..count / 2 {
        let at = i * 2;
        to[at] = to[at + w];
        to[at + 1] = to[at + 1 + w];
    }
    if count % 2 == 1 {
        to[count - 1] = to[count - 1 + w];
    }
}
