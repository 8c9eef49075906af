// What C and Rust can call: `maztubel_c` exports each entry under its C name, and include/maztubel.h declares the same.
// No entry has a `requires`: each answers every argument, with 0 or with a refusal's number, and its contract says what
// every lent number is afterwards.
//
// Sine, cosine, arctangent and arccosine, of one argument and of slices. A slice form tests every argument before it
// writes the first answer, so that a refusal leaves the slice as it was. The entries of a chain stand in chain_entries,
// those of the inverse map in inverse_entries, that of the positioning profile in tooth_entries, those of a model in
// link_entries, the one that asks whether links meet in meet_entries, that of a path in path_entries, those that divide
// in divide_entries, those that quote a division in quote_entries, those of quotas in quota_entries, those of a cell's
// dispatcher in cell_entries, those of a job in job_entries, the one that writes a job in write_entries, those of the
// extremes beside a path in extremes_entries; a crate above calls all of them from here.
#![tactic(auto)]

mod cell_entries;
mod chain_entries;
mod divide_entries;
mod extremes_entries;
mod inverse_entries;
mod job_entries;
mod lent;
mod link_entries;
mod meet_entries;
mod path_entries;
mod quota_entries;
mod quote_entries;
mod tooth_entries;
mod write_entries;

ghost use Rattle.std.specs.Prelude.{◌≡◌, ◌&&◌, map, zip, Float, Option};
ghost use Rattle.std.specs.List.{list_any};
ghost use Rattle.trig.specs.Waves as Waves;
ghost use Rattle.trig.specs.Arctangent as Arctangent;
ghost use Rattle.trig.specs.Arccosine as Arccosine;
ghost use Rattle.lists.specs.Rows.{paired};
ghost use Rattle.maztubel.specs.Lent as Lent;
ghost use Rattle.maztubel.specs.Answers.{number_of, written_over, refuses, same_length, number_of_all, all_written_over, EachRight, EachPairRight};

pub use cell_entries::{maztubel_admit, maztubel_count, maztubel_next, maztubel_turn};
use chain::demand;
pub use chain_entries::{maztubel_check_chain, maztubel_forward};
pub use divide_entries::{
    maztubel_solve_and_divide, maztubel_subdivide_path, maztubel_subdivide_strict,
};
pub use extremes_entries::{
    maztubel_build_extremes, maztubel_first_above, maztubel_replace_joints,
};
pub use inverse_entries::{maztubel_choose, maztubel_inverse};
pub use job_entries::{maztubel_cable_number, maztubel_job_poses, maztubel_read_job};
use lent::number_in;
pub use link_entries::{maztubel_check_model, maztubel_link_in_part, maztubel_link_world};
pub use meet_entries::maztubel_links_meet;
pub use path_entries::maztubel_solve_path;
pub use quota_entries::{maztubel_divide_for, maztubel_grant};
pub use quote_entries::{maztubel_quote, maztubel_quote_strict};
use refusal::{Cause, Refusal};
pub use tooth_entries::maztubel_choose_tooth;
pub use write_entries::maztubel_write_job;

pub fn maztubel_sine(x: f64, answer: &mut f64) -> u32
    ensures number { result ≡ number_of (Waves.sine_of x) }
    ensures lent { answer.new ≡ written_over (Waves.sine_of x) answer.old }
    ensures right { Waves.SineAnswer x (Waves.sine_of x) }
{
    put(trig::sine(x), answer)
}

pub fn maztubel_cosine(x: f64, answer: &mut f64) -> u32
    ensures number { result ≡ number_of (Waves.cosine_of x) }
    ensures lent { answer.new ≡ written_over (Waves.cosine_of x) answer.old }
    ensures right { Waves.CosineAnswer x (Waves.cosine_of x) }
{
    put(trig::cosine(x), answer)
}

pub fn maztubel_arctangent(y: f64, x: f64, answer: &mut f64) -> u32
    ensures number { result ≡ number_of (Arctangent.arctangent_of y x) }
    ensures lent { answer.new ≡ written_over (Arctangent.arctangent_of y x) answer.old }
    ensures right { Arctangent.ArctangentAnswer y x (Arctangent.arctangent_of y x) }
{
    put(trig::arctangent(y, x), answer)
}

pub fn maztubel_arccosine(c: f64, answer: &mut f64) -> u32
    ensures number { result ≡ number_of (Arccosine.arccosine_of c) }
    ensures lent { answer.new ≡ written_over (Arccosine.arccosine_of c) answer.old }
    ensures right { Arccosine.ArccosineAnswer c (Arccosine.arccosine_of c) }
{
    put(trig::arccosine(c), answer)
}

#[tactic(auto, using(trig::proofs::Laws::sine_answer))]
pub fn maztubel_sines(xs: &[f64], answers: &mut [f64]) -> u32
    ensures number { result ≡ number_of_all (same_length xs.now answers.old) (map Waves.sine_of xs.now) }
    ensures lent { answers.new ≡ all_written_over result (map Waves.sine_of xs.now) answers.old }
    ensures right { EachRight Waves.SineAnswer Waves.sine_of xs.now }
{
    let checked = of_each::<Sines>(xs, answers);
    number_in(&checked)
}

#[tactic(auto, using(trig::proofs::Laws::cosine_answer))]
pub fn maztubel_cosines(xs: &[f64], answers: &mut [f64]) -> u32
    ensures number { result ≡ number_of_all (same_length xs.now answers.old) (map Waves.cosine_of xs.now) }
    ensures lent { answers.new ≡ all_written_over result (map Waves.cosine_of xs.now) answers.old }
    ensures right { EachRight Waves.CosineAnswer Waves.cosine_of xs.now }
{
    let checked = of_each::<Cosines>(xs, answers);
    number_in(&checked)
}

#[tactic(auto, using(trig::proofs::Laws::arccosine_answer))]
pub fn maztubel_arccosines(cs: &[f64], answers: &mut [f64]) -> u32
    ensures number { result ≡ number_of_all (same_length cs.now answers.old) (map Arccosine.arccosine_of cs.now) }
    ensures lent { answers.new ≡ all_written_over result (map Arccosine.arccosine_of cs.now) answers.old }
    ensures right { EachRight Arccosine.ArccosineAnswer Arccosine.arccosine_of cs.now }
{
    let checked = of_each::<Arccosines>(cs, answers);
    number_in(&checked)
}

#[tactic(auto, using(trig::proofs::Laws::arctangent_answer))]
pub fn maztubel_arctangents(ys: &[f64], xs: &[f64], answers: &mut [f64]) -> u32
    ensures number { result ≡ number_of_all (same_length ys.now xs.now && same_length xs.now answers.old) (paired Arctangent.arctangent_of ys.now xs.now) }
    ensures lent { answers.new ≡ all_written_over result (paired Arctangent.arctangent_of ys.now xs.now) answers.old }
    ensures right { EachPairRight Arctangent.ArctangentAnswer Arctangent.arctangent_of ys.now xs.now }
{
    let checked = of_pairs(ys, xs, answers);
    number_in(&checked)
}

// A function of one argument that `trig` answers: one pair of loops serves the slice forms of all.
trait Answered {
    ghost answer: { Float → Option Float };

    fn answer(x: f64) -> Option<f64>
        ensures { result ≡ answer x };

    // Whether an argument is out of range, which takes no evaluation.
    fn refused(x: f64) -> bool
        ensures { result ≡ refuses (answer x) };
}

struct Sines;

impl Answered for Sines {
    ghost answer = { Waves.sine_of };

    fn answer(x: f64) -> Option<f64> {
        trig::sine(x)
    }

    #[tactic(auto, using(crate::proofs::Ranges::sine_ranges, crate::proofs::Ranges::cosine_ranges))]
    fn refused(x: f64) -> bool {
        !trig::served(x)
    }
}

struct Cosines;

impl Answered for Cosines {
    ghost answer = { Waves.cosine_of };

    fn answer(x: f64) -> Option<f64> {
        trig::cosine(x)
    }

    #[tactic(auto, using(crate::proofs::Ranges::sine_ranges, crate::proofs::Ranges::cosine_ranges))]
    fn refused(x: f64) -> bool {
        !trig::served(x)
    }
}

struct Arccosines;

impl Answered for Arccosines {
    ghost answer = { Arccosine.arccosine_of };

    fn answer(x: f64) -> Option<f64> {
        trig::arccosine(x)
    }

    #[tactic(auto, using(crate::proofs::Ranges::arccosine_ranges))]
    fn refused(x: f64) -> bool {
        !trig::cosine_range(x)
    }
}

fn any_refused<F: Answered>(xs: &[f64]) -> bool
    ensures { result ≡ list_any (λ x. refuses (F.answer x)) xs.now }
{
    xs.iter().any(|x| F::refused(*x))
}

#[tactic(auto, unfolding(crate::specs::Answers::number_of_all))]
fn of_each<F: Answered>(xs: &[f64], answers: &mut [f64]) -> Result<(), Refusal>
    ensures number { Lent.number_in result ≡ number_of_all (same_length xs.now answers.old) (map F.answer xs.now) }
    ensures lent { answers.new ≡ all_written_over (Lent.number_in result) (map F.answer xs.now) answers.old }
{
    demand(xs.len() == answers.len(), Cause::LengthsDiffer, 0)?;
    demand(!any_refused::<F>(xs), Cause::TooLarge, 0)?;
    // By index, as in `of_pairs`: tried with `zip`, under which the loop's invariant cannot name the answers.
    for (i, answer) in answers.iter_mut().enumerate() {
        *answer = F::answer(xs[i]).unwrap_or(*answer);
    }
    Ok(())
}

// Writes the answer where there is one, and gives its number.
fn put(a: Option<f64>, answer: &mut f64) -> u32
    ensures { (result ≡ number_of a) × (answer.new ≡ written_over a answer.old) }
{
    match a {
        Some(v) => {
            *answer = v;
            0
        }
        None => Cause::TooLarge.number(),
    }
}

fn pair_refused(y: f64, x: f64) -> bool
    ensures { result ≡ refuses (Arctangent.arctangent_of y x) }
{
    !(float::finite(y) && float::finite(x))
}

fn any_pair_refused(ys: &[f64], xs: &[f64]) -> bool
    ensures { result ≡ list_any (λ p. refuses (Arctangent.arctangent_of p.0 p.1)) (zip ys.now xs.now) }
{
    ys.iter().zip(xs).any(|(y, x)| pair_refused(*y, *x))
}

// Apart from `of_each`, since C lends two slices here. One loop for both would be handed a closure that answers for an
// index, and each of the two callers would have to prove of its closure that the index lies within its slices, which
// each of the two loops knows of its own.
#[tactic(auto, unfolding(crate::specs::Answers::number_of_all))]
fn of_pairs(ys: &[f64], xs: &[f64], answers: &mut [f64]) -> Result<(), Refusal>
    ensures number { Lent.number_in result ≡ number_of_all (same_length ys.now xs.now && same_length xs.now answers.old) (paired Arctangent.arctangent_of ys.now xs.now) }
    ensures lent { answers.new ≡ all_written_over (Lent.number_in result) (paired Arctangent.arctangent_of ys.now xs.now) answers.old }
{
    demand(ys.len() == xs.len(), Cause::LengthsDiffer, 0)?;
    demand(xs.len() == answers.len(), Cause::LengthsDiffer, 0)?;
    demand(!any_pair_refused(ys, xs), Cause::TooLarge, 0)?;
    for (i, answer) in answers.iter_mut().enumerate() {
        *answer = trig::arctangent(ys[i], xs[i]).unwrap_or(*answer);
    }
    Ok(())
}
