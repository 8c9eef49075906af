// The entries of a model.
ghost use Rattle.std.specs.Prelude.{◌≡◌, length};
ghost use Rattle.model.specs.Frame.{link_world, link_in_part};
ghost use Rattle.maztubel.specs.Lent as Lent;
ghost use Rattle.maztubel.specs.LinkEntries as S;

#[unsafe(no_mangle)]
pub extern "C" fn maztubel_check_model(
    name: &[u8],
    chain: &[u8],
    model: &[u8],
    at: &mut u64,
    letter: &mut u8,
) -> u32
    ensures number { result ≡ Lent.number_in (S.check_model_of name.now chain.now model.now) }
    ensures place { at.new ≡ Lent.place_in (S.check_model_of name.now chain.now model.now) }
    ensures named { letter.new ≡ Lent.letter_in (S.check_model_of name.now chain.now model.now) }
{
    maztubel::maztubel_check_model(name, chain, model, at, letter)
}

#[unsafe(no_mangle)]
pub extern "C" fn maztubel_link_world(
    name: &[u8],
    chain: &[u8],
    model: &[u8],
    joints: &[f64],
    carrier: &[u8],
    frame: &mut [f64],
    at: &mut u64,
    letter: &mut u8,
) -> u32
    ensures number { result ≡ Lent.number_in (S.link_of link_world name.now chain.now model.now joints.now carrier.now (length frame.old)) }
    ensures place { at.new ≡ Lent.place_in (S.link_of link_world name.now chain.now model.now joints.now carrier.now (length frame.old)) }
    ensures named { letter.new ≡ Lent.letter_in (S.link_of link_world name.now chain.now model.now joints.now carrier.now (length frame.old)) }
    ensures lent { frame.new ≡ S.frame_over (S.link_of link_world name.now chain.now model.now joints.now carrier.now (length frame.old)) frame.old }
{
    maztubel::maztubel_link_world(name, chain, model, joints, carrier, frame, at, letter)
}

#[unsafe(no_mangle)]
pub extern "C" fn maztubel_link_in_part(
    name: &[u8],
    chain: &[u8],
    model: &[u8],
    joints: &[f64],
    carrier: &[u8],
    frame: &mut [f64],
    at: &mut u64,
    letter: &mut u8,
) -> u32
    ensures number { result ≡ Lent.number_in (S.link_of link_in_part name.now chain.now model.now joints.now carrier.now (length frame.old)) }
    ensures place { at.new ≡ Lent.place_in (S.link_of link_in_part name.now chain.now model.now joints.now carrier.now (length frame.old)) }
    ensures named { letter.new ≡ Lent.letter_in (S.link_of link_in_part name.now chain.now model.now joints.now carrier.now (length frame.old)) }
    ensures lent { frame.new ≡ S.frame_over (S.link_of link_in_part name.now chain.now model.now joints.now carrier.now (length frame.old)) frame.old }
{
    maztubel::maztubel_link_in_part(name, chain, model, joints, carrier, frame, at, letter)
}
