// Area sums for C. The table is an array of words.
ghost use Rattle.std.specs.Prelude.{◌≡◌};
ghost use Rattle.picture.specs.Answer.{answered};
ghost use Rattle.area_boxes.specs.Outcome.{box_outcome};
ghost use Rattle.area_updates.specs.Outcome.{update_outcome};
ghost use Rattle.area.specs.Outcome.{build_outcome};

use area_boxes::boxes::PixelBox;

// Builds the table of a picture of w by h pixels, as `build` does.
#[unsafe(no_mangle)]
pub extern "C" fn corbelrush_area_build(picture: &[u8], w: u32, h: u32, table: &mut [u32]) -> u32
    ensures { answered result table.new ≡ build_outcome picture.now w h table.old }
{
    picture::number_of(area::builder::build(picture, w, h, table))
}

// The sum of a box, as `box_sum` answers it; it goes through the pointer.
#[unsafe(no_mangle)]
pub extern "C" fn corbelrush_area_box(
    table: &[u32],
    w: u32,
    h: u32,
    x: u32,
    y: u32,
    wide: u32,
    high: u32,
    sum: &mut u64,
) -> u32
    ensures { answered result sum.new ≡ box_outcome table.now w h x y wide high }
{
    *sum = 0;
    match area_boxes::boxes::box_sum(table, w, h, PixelBox { x, y, wide, high }) {
        Err(refusal) => refusal.number(),
        Ok(s) => {
            *sum = s.alphas as u64;
            0
        }
    }
}

// Carries the change of one alpha into the table, as `update` does.
#[unsafe(no_mangle)]
pub extern "C" fn corbelrush_area_update(
    table: &mut [u32],
    w: u32,
    h: u32,
    place: u64,
    old: u8,
    new: u8,
) -> u32
    ensures { answered result table.new ≡ update_outcome table.old w h place old new }
{
    picture::number_of(area_updates::updater::update(table, w, h, place, old, new))
}
