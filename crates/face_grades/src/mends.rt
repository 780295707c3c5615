// The mender and the rebuilder for C. The list of changes is an array of pairs of words.
ghost use Rattle.std.specs.Prelude.{◌≡◌};
ghost use Rattle.picture.specs.Answer.{answered};
ghost use Rattle.rebuilding.specs.Outcome.{rebuild_outcome};
ghost use Rattle.mending.specs.Outcome.{mend_left, mend_outcome};

// Mends a picture of w by h pixels, as `mend` does: the count goes through the pointer.
#[unsafe(no_mangle)]
pub extern "C" fn corbelrush_mend(
    picture: &mut [u8],
    w: u32,
    h: u32,
    list: &mut [[u32; 2]],
    count: &mut u64,
) -> u32
    ensures { answered result (mend_left picture.new list.new count.new) ≡ mend_outcome picture.old w h list.old }
{
    *count = 0;
    match mending::mender::mend(picture, w, h, list) {
        Err(refusal) => refusal.number(),
        Ok(n) => {
            *count = n as u64;
            0
        }
    }
}

// Rebuilds a picture of w by h pixels from its list of changes, as `rebuild` does.
#[unsafe(no_mangle)]
pub extern "C" fn corbelrush_rebuild(picture: &mut [u8], w: u32, h: u32, list: &[[u32; 2]]) -> u32
    ensures { answered result picture.new ≡ rebuild_outcome picture.old w h list.now }
{
    picture::number_of(rebuilding::rebuilder::rebuild(picture, w, h, list))
}
