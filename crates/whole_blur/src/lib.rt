// The blur in whole numbers: the recursion over levels, and the entry `blur_whole`. No float is used here or in what it calls.
#![tactic(auto)]

ghost use Rattle.std.specs.Prelude.{◌≡◌};
ghost use Rattle.picture.specs.Planes.{bytes_of, cleared};
ghost use Rattle.picture.specs.Refusal.{number_of, first_of};
ghost use Rattle.picture.specs.Answer.{answered, lent};
ghost use Rattle.whole_blur.specs.Blurred.{whole_blurred};
ghost use Rattle.whole_blur.specs.Needs.{WholeReady, WholeAccepted};
ghost use Rattle.whole_blur.specs.Outcome.{whole_checks, whole_outcome};

use passes::Form;
use picture::{EdgeMode, FullSize, LevelSize, Refusal, refuse_if};

// Halves, blurs with one decimation fewer, and doubles; with none left it convolves.
fn apply_whole(
    picture: &mut [u8],
    scratch: &mut [u8],
    s: LevelSize,
    n: u32,
    numerators: &[u32],
    mode: EdgeMode,
)
    requires { WholeReady s.w s.h picture.old scratch.old numerators.now }
    ensures { picture.new ≡ whole_blurred mode numerators.now n s.w s.h picture.old }
{
    if n == 0 {
        whole_lines::whole_level(picture, scratch, s, numerators, mode);
    } else {
        let t = s.half();
        let k = t.bytes();
        decimate::halve_form(picture, scratch, s, Form::PIXELS, mode);
        apply_whole(
            &mut picture[..k],
            &mut scratch[..k],
            t,
            n - 1,
            numerators,
            mode,
        );
        decimate::double_form(picture, scratch, s, Form::PIXELS, mode);
    }
}

// The first of refusals 1, 2, 3, 4, 14, 6 and 9 that fits; of the buffers' lengths.
#[tactic(auto, unfolding(picture::specs::Refusal::number_of, picture::specs::Refusal::number, picture::specs::Refusal::first_of, picture::specs::Refusal::first_else))]
fn check_whole(
    picture: usize,
    w: u32,
    h: u32,
    scratch: usize,
    numerators: &[u32],
    n: u32,
    edge: u32,
) -> Result<(), Refusal>
    ensures { number_of result ≡ first_of (whole_checks picture w h scratch numerators.now n edge) }
{
    picture::check_picture(picture, w, h)?;
    refuse_if(picture::too_short(scratch, w, h), Refusal::TooShort)?;
    refuse_if(picture::wrong_taps(numerators.len()), Refusal::WrongTaps)?;
    refuse_if(grid_sums::is_heavy(numerators), Refusal::WrongSum)?;
    refuse_if(picture::too_deep(n), Refusal::TooDeep)?;
    refuse_if(picture::wrong_edge(edge), Refusal::WrongEdge)
}

// An accepted call: the picture blurred, and the scratch zero where it was used.
fn whole_accepted(
    picture: &mut [u8],
    scratch: &mut [u8],
    size: FullSize,
    n: u32,
    numerators: &[u32],
    mode: EdgeMode,
)
    requires { WholeAccepted size.w size.h picture.old scratch.old numerators.now }
    ensures { lent picture.new scratch.new ≡ lent (whole_blurred mode numerators.now n size.w size.h picture.old) (cleared (bytes_of size.w size.h) scratch.old) }
{
    let k = size.bytes();
    apply_whole(
        picture,
        &mut scratch[..k],
        size.level_zero(),
        n,
        numerators,
        mode,
    );
    picture::clear(scratch, k);
}

// Blurs a picture of w by h pixels, with numerators over 65536, where nothing is refused.
pub fn blur_whole(
    picture: &mut [u8],
    w: u32,
    h: u32,
    scratch: &mut [u8],
    numerators: &[u32],
    n: u32,
    edge: u32,
) -> Result<(), Refusal>
    ensures { answered (number_of result) (lent picture.new scratch.new) ≡ whole_outcome picture.old w h scratch.old numerators.now n edge }
{
    check_whole(picture.len(), w, h, scratch.len(), numerators, n, edge)?;
    let size = picture::full_size(w, h);
    let mode = picture::edge_mode(edge);
    whole_accepted(picture, scratch, size, n, numerators, mode);
    Ok(())
}
