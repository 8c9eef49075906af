// The entries of the dispatcher of a cell. A case has the state's words where another has a name, and its numbers where
// another has a model, eight bytes each. The outputs of a turn hold the case's two slices in front.
use crate::cases;
use crate::cases::Case;
use crate::told::{Numbers, WholeNumbers, called};
use arrayvec::ArrayVec;
use std::io;
use std::io::Write;

// One word more than a state has, for states of another length.
fn words_of(case: &Case) -> ArrayVec<u64, 146> {
    cases::read_each(cases::in_words(case.name), cases::whole_number)
}

// And one number more.
fn numbers_of(case: &Case) -> ArrayVec<f64, 369> {
    cases::read_each(cases::in_words(case.model), cases::number)
}

pub fn admit<W: Write>(
    out: &mut W,
    case: &Case,
    poses: &[f64],
    joints: &[f64],
    out_poses: &mut [f64],
    out_joints: &mut [f64],
) -> io::Result<()> {
    let mut words = words_of(case);
    let mut numbers = numbers_of(case);
    let mut path: u64 = 7;
    called(out, "admit", |at, letter| {
        maztubel::maztubel_admit(
            words.as_mut_slice(),
            numbers.as_mut_slice(),
            case.chain_or_job,
            poses,
            joints,
            case.single(0),
            case.single(1),
            out_poses,
            out_joints,
            &mut path,
            at,
            letter,
        )
    })?;
    write!(out, " {path}{}{}", WholeNumbers(&words), Numbers(&numbers))?;
    writeln!(out, "{}{}", Numbers(out_poses), Numbers(out_joints))
}

pub fn next<W: Write>(out: &mut W, case: &Case) -> io::Result<()> {
    let words = words_of(case);
    let mut path: u64 = 7;
    let number = maztubel::maztubel_next(&words, &mut path);
    writeln!(out, "next {number} 0 0 {path}")
}

// The words to the front of the lent numbers.
fn put_in_front(words: &[[u8; 8]], lent: &mut [f64]) {
    for (word, x) in words.iter().zip(lent) {
        *x = cases::number(word);
    }
}

pub fn turn<W: Write>(
    out: &mut W,
    case: &Case,
    out_poses: &mut [f64],
    out_joints: &mut [f64],
) -> io::Result<()> {
    let mut words = words_of(case);
    let mut numbers = numbers_of(case);
    put_in_front(case.first, out_poses);
    put_in_front(case.second, out_joints);
    let mut path: u64 = 7;
    let mut ended: u8 = 7;
    let mut inserted: u64 = 7;
    let number = maztubel::maztubel_turn(
        words.as_mut_slice(),
        numbers.as_mut_slice(),
        out_poses,
        out_joints,
        &mut path,
        &mut ended,
        &mut inserted,
    );
    write!(out, "turn {number} 0 0 {path} {ended} {inserted}")?;
    write!(out, "{}{}", WholeNumbers(&words), Numbers(&numbers))?;
    writeln!(out, "{}{}", Numbers(out_poses), Numbers(out_joints))
}

pub fn count<W: Write>(out: &mut W, case: &Case) -> io::Result<()> {
    let words = words_of(case);
    let mut inserted: u64 = 7;
    let number = maztubel::maztubel_count(&words, case.which as u64, &mut inserted);
    writeln!(out, "count {number} 0 0 {inserted}")
}
