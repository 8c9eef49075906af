// What every entry does with what it is lent: it hands a refusal back, and writes vectors.
ghost use Rattle.std.specs.Prelude.{◌+◌, ◌≤◌, ◌≡◌, length};
ghost use Rattle.maztubel.specs.Lent as S;

use geometry::Vec3;
use refusal::Refusal;

// What C is told of an answer: the refusal's number, its place and its letter; all 0 where there is none.
#[derive(Clone, Copy, Default)]
struct Outcome {
    number: u32,
    at: u64,
    letter: u8,
}

fn outcome_of<T>(answer: &Result<T, Refusal>) -> Outcome
    ensures number { result.number ≡ S.number_in answer.now }
    ensures place { result.at ≡ S.place_in answer.now }
    ensures named { result.letter ≡ S.letter_in answer.now }
{
    match answer {
        Ok(_) => Outcome::default(),
        Err(r) => Outcome {
            number: r.cause.number(),
            at: r.at,
            letter: r.letter,
        },
    }
}

// The number, with place and letter written.
pub fn hand_back<T>(answer: &Result<T, Refusal>, at: &mut u64, letter: &mut u8) -> u32
    ensures number { result ≡ S.number_in answer.now }
    ensures place { at.new ≡ S.place_in answer.now }
    ensures named { letter.new ≡ S.letter_in answer.now }
{
    let told = outcome_of(answer);
    *at = told.at;
    *letter = told.letter;
    told.number
}

// The number, with the place written, of an entry that is lent no letter.
pub fn hand_place<T>(answer: &Result<T, Refusal>, at: &mut u64) -> u32
    ensures number { result ≡ S.number_in answer.now }
    ensures place { at.new ≡ S.place_in answer.now }
{
    let told = outcome_of(answer);
    *at = told.at;
    told.number
}

// The number, of an entry that is lent neither.
pub fn number_in<T>(answer: &Result<T, Refusal>) -> u32
    ensures { result ≡ S.number_in answer.now }
{
    outcome_of(answer).number
}

// Writes three numbers from an index on.
pub fn put_vector(v: Vec3, numbers: &mut [f64], at: usize)
    requires { at + 3 ≤ length numbers.old }
    ensures { numbers.new ≡ S.vector_over v numbers.old at }
{
    numbers[at..at + 3].copy_from_slice(&[v.x, v.y, v.z]);
}
