// The blur in whole numbers alone, for C: a library for a reader without a float unit.
// It says its contract a second time for the reason that corbelrush_c does: the C interface needs the function in this crate.
#![tactic(auto)]

ghost use Rattle.std.specs.Prelude.{◌≡◌};
ghost use Rattle.picture.specs.Answer.{answered, lent};
ghost use Rattle.whole_blur.specs.Outcome.{whole_outcome};

// Blurs a picture of w by h pixels with numerators over 65536, as `blur_whole` does.
#[unsafe(no_mangle)]
pub extern "C" fn corbelrush_blur_whole(
    picture: &mut [u8],
    w: u32,
    h: u32,
    scratch: &mut [u8],
    numerators: &[u32],
    n: u32,
    edge: u32,
) -> u32
    ensures { answered result (lent picture.new scratch.new) ≡ whole_outcome picture.old w h scratch.old numerators.now n edge }
{
    picture::number_of(whole_blur::blur_whole(picture, w, h, scratch, numerators, n, edge))
}
