// The static library libmaztubel.a: each entry of `maztubel` under its C name, with the contract that it has there. C
// and Rust call these, and include/maztubel.h declares them; a crate of this repository calls those of `maztubel`.
// Sine, cosine, arctangent and arccosine stand here, every other entry in the file that is named as its file in
// `maztubel`.
#![tactic(auto)]

mod cell_entries;
mod chain_entries;
mod divide_entries;
mod extremes_entries;
mod inverse_entries;
mod job_entries;
mod link_entries;
mod meet_entries;
mod path_entries;
mod quota_entries;
mod quote_entries;
mod tooth_entries;
mod write_entries;

ghost use Rattle.std.specs.Prelude.{◌≡◌, ◌&&◌, map};
ghost use Rattle.trig.specs.Waves as Waves;
ghost use Rattle.trig.specs.Arctangent as Arctangent;
ghost use Rattle.trig.specs.Arccosine as Arccosine;
ghost use Rattle.lists.specs.Rows.{paired};
ghost use Rattle.maztubel.specs.Answers.{number_of, written_over, same_length, number_of_all, all_written_over, EachRight, EachPairRight};

#[unsafe(no_mangle)]
pub extern "C" fn maztubel_sine(x: f64, answer: &mut f64) -> u32
    ensures number { result ≡ number_of (Waves.sine_of x) }
    ensures lent { answer.new ≡ written_over (Waves.sine_of x) answer.old }
    ensures right { Waves.SineAnswer x (Waves.sine_of x) }
{
    maztubel::maztubel_sine(x, answer)
}

#[unsafe(no_mangle)]
pub extern "C" fn maztubel_cosine(x: f64, answer: &mut f64) -> u32
    ensures number { result ≡ number_of (Waves.cosine_of x) }
    ensures lent { answer.new ≡ written_over (Waves.cosine_of x) answer.old }
    ensures right { Waves.CosineAnswer x (Waves.cosine_of x) }
{
    maztubel::maztubel_cosine(x, answer)
}

#[unsafe(no_mangle)]
pub extern "C" fn maztubel_arctangent(y: f64, x: f64, answer: &mut f64) -> u32
    ensures number { result ≡ number_of (Arctangent.arctangent_of y x) }
    ensures lent { answer.new ≡ written_over (Arctangent.arctangent_of y x) answer.old }
    ensures right { Arctangent.ArctangentAnswer y x (Arctangent.arctangent_of y x) }
{
    maztubel::maztubel_arctangent(y, x, answer)
}

#[unsafe(no_mangle)]
pub extern "C" fn maztubel_arccosine(c: f64, answer: &mut f64) -> u32
    ensures number { result ≡ number_of (Arccosine.arccosine_of c) }
    ensures lent { answer.new ≡ written_over (Arccosine.arccosine_of c) answer.old }
    ensures right { Arccosine.ArccosineAnswer c (Arccosine.arccosine_of c) }
{
    maztubel::maztubel_arccosine(c, answer)
}

#[unsafe(no_mangle)]
pub extern "C" fn maztubel_sines(xs: &[f64], answers: &mut [f64]) -> u32
    ensures number { result ≡ number_of_all (same_length xs.now answers.old) (map Waves.sine_of xs.now) }
    ensures lent { answers.new ≡ all_written_over result (map Waves.sine_of xs.now) answers.old }
    ensures right { EachRight Waves.SineAnswer Waves.sine_of xs.now }
{
    maztubel::maztubel_sines(xs, answers)
}

#[unsafe(no_mangle)]
pub extern "C" fn maztubel_cosines(xs: &[f64], answers: &mut [f64]) -> u32
    ensures number { result ≡ number_of_all (same_length xs.now answers.old) (map Waves.cosine_of xs.now) }
    ensures lent { answers.new ≡ all_written_over result (map Waves.cosine_of xs.now) answers.old }
    ensures right { EachRight Waves.CosineAnswer Waves.cosine_of xs.now }
{
    maztubel::maztubel_cosines(xs, answers)
}

#[unsafe(no_mangle)]
pub extern "C" fn maztubel_arccosines(cs: &[f64], answers: &mut [f64]) -> u32
    ensures number { result ≡ number_of_all (same_length cs.now answers.old) (map Arccosine.arccosine_of cs.now) }
    ensures lent { answers.new ≡ all_written_over result (map Arccosine.arccosine_of cs.now) answers.old }
    ensures right { EachRight Arccosine.ArccosineAnswer Arccosine.arccosine_of cs.now }
{
    maztubel::maztubel_arccosines(cs, answers)
}

#[unsafe(no_mangle)]
pub extern "C" fn maztubel_arctangents(ys: &[f64], xs: &[f64], answers: &mut [f64]) -> u32
    ensures number { result ≡ number_of_all (same_length ys.now xs.now && same_length xs.now answers.old) (paired Arctangent.arctangent_of ys.now xs.now) }
    ensures lent { answers.new ≡ all_written_over result (paired Arctangent.arctangent_of ys.now xs.now) answers.old }
    ensures right { EachPairRight Arctangent.ArctangentAnswer Arctangent.arctangent_of ys.now xs.now }
{
    maztubel::maztubel_arctangents(ys, xs, answers)
}
