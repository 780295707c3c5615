// Small callers of the library, each with a contract in words of its own that is proved from the public contracts alone.
#![tactic(auto)]

ghost use Rattle.std.specs.Prelude.{◌≡◌, [], ◌∷◌};
ghost use Rattle.client_examples.specs.Pixels.{alphas};
ghost use Rattle.client_examples.specs.Told.{Told};

// Three pixels in a row under Wrap, of which the first has alpha 255: blurred with one decimation, each has 96.
pub fn wrapped_row() -> [u8; 12]
    ensures { result ≡ alphas (96 ∷ 96 ∷ 96 ∷ []) }
{
    let mut picture = [0u8, 0, 0, 255, 0, 0, 0, 0, 0, 0, 0, 0];
    let mut scratch = [0u8; 12];
    let weights = [0.25, 0.5, 0.25];
    let _ = gaussian_blur::blur(&mut picture, 3, 1, &mut scratch, &weights, 1, 1.0, 1);
    picture
}

// Three pixels in a row with alphas 1, 2 and 3, moved four to the left: nothing is left of them.
pub fn moved_out() -> [u8; 12]
    ensures { result ≡ alphas (0 ∷ 0 ∷ 0 ∷ []) }
{
    let mut picture = [0u8, 0, 0, 1, 0, 0, 0, 2, 0, 0, 0, 3];
    let _ = shift::shift(&mut picture, 3, 1, -4.0, 0.0);
    picture
}

// A picture that is 0 pixels wide is refused as 1, whatever else is wrong, and both buffers are as they were.
pub fn no_width(
    picture: &mut [u8],
    h: u32,
    scratch: &mut [u8],
    weights: &[f32],
    n: u32,
    strength: f32,
    edge: u32,
) -> u32
    ensures { (result ≡ 1) × (picture.new ≡ picture.old) × (scratch.new ≡ scratch.old) }
{
    let answer = gaussian_blur::blur(picture, 0, h, scratch, weights, n, strength, edge);
    picture::number_of(answer)
}

// Any call of the blur, and what its number tells the client.
pub fn blur_told(
    picture: &mut [u8],
    w: u32,
    h: u32,
    scratch: &mut [u8],
    weights: &[f32],
    n: u32,
    strength: f32,
    edge: u32,
) -> u32
    ensures { Told result w h picture.old scratch.old picture.new scratch.new }
{
    let answer = gaussian_blur::blur(picture, w, h, scratch, weights, n, strength, edge);
    picture::number_of(answer)
}
