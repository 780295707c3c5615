// The shift: offset_pixels moves a picture in place, and the entry `shift` checks and calls it.
#![tactic(auto)]

ghost use Rattle.std.specs.Prelude.{◌≡◌, ◌||◌, ◌+◌, ◌*◌, ◌≤◌, ◌<◌, length};
ghost use Rattle.picture.specs.Refusal.{number_of, first_of};
ghost use Rattle.picture.specs.Answer.{answered};
ghost use Rattle.picture.specs.Buffers.{copied};
ghost use Rattle.binary32.specs.Round.{whole_offset};
ghost use Rattle.shift.specs.Shift.{shifted_picture};
ghost use Rattle.shift.specs.Bytes.{along, slid, zeroed, run_moved, turn_row, columns_zeroed, inside_kept, plane_shifted, OneWay, moved_out, elements_shifted};
ghost use Rattle.shift.specs.Outcome.{wrong_offsets, ShiftReady, ElementsReady, shift_checks, shift_outcome};

use binary32::Offset;
use picture::{FullSize, Refusal, refuse_if};

// A move along bytes: this many forward, or this many back. An `Offset` counts whole pixels, or rows: a kind of its own, so that neither is
// lent for the other.
#[derive(Clone, Copy)]
pub struct ByteOffset {
    pub plus: usize,
    pub minus: usize,
}

// Sets the n bytes from `start` on to zero.
fn clear_run(bytes: &mut [u8], start: usize, n: usize)
    requires { start + n ≤ length bytes.old }
    ensures { bytes.new ≡ zeroed start n bytes.old }
{
    picture::clear(&mut bytes[start..], n);
}

// Copies the n bytes from `from` on to the place `to`. Where that is one place no byte is touched: a picture that does not move costs no pass.
fn copy_run(bytes: &mut [u8], from: usize, to: usize, n: usize)
    requires { (from + n ≤ length bytes.old) × (to + n ≤ length bytes.old) }
    ensures { bytes.new ≡ copied n from to bytes.old }
{
    if from == to {
        return;
    }
    picture::move_bytes(bytes, from, to, n);
}

// Makes of the w bytes from `to` on those from `from` on, moved by d: what stays inside is copied, the rest is cleared.
fn move_run(bytes: &mut [u8], from: usize, to: usize, w: usize, d: ByteOffset)
    requires { (from + w ≤ length bytes.old) × (to + w ≤ length bytes.old) × OneWay (along d) × (d.plus + d.minus ≤ w) }
    ensures { bytes.new ≡ run_moved (along d) w from to bytes.old }
{
    let plus = d.plus;
    let minus = d.minus;
    let kept = w - (plus + minus);
    copy_run(bytes, from + minus, to + plus, kept);
    clear_run(bytes, to, plus);
    clear_run(bytes, to + plus + kept, minus);
}

// The same move with one of its numbers 0.
fn net(d: ByteOffset) -> ByteOffset
    ensures { OneWay (along result) × (result.plus + d.minus ≡ d.plus + result.minus) }
{
    ByteOffset {
        plus: d.plus.saturating_sub(d.minus),
        minus: d.minus.saturating_sub(d.plus),
    }
}

// Moves every byte by d places.
fn slide(bytes: &mut [u8], d: ByteOffset)
    requires { (d.plus ≤ length bytes.old) × (d.minus ≤ length bytes.old) }
    ensures { bytes.new ≡ slid (along d) bytes.old }
{
    let n = bytes.len();
    move_run(bytes, 0, 0, n, net(d));
}

// Sets the n bytes from `start` on to zero in each of the h rows of w bytes.
fn clear_each(bytes: &mut [u8], w: usize, h: usize, start: usize, n: usize)
    requires { (length bytes.old ≡ h * w) × (start + n ≤ w) }
    ensures { bytes.new ≡ columns_zeroed w start n bytes.old }
{
    for y in 0..h {
        clear_run(bytes, y * w + start, n);
    }
}

// The same. One, two and three pixels are numbers of bytes that the compiler knows, so that they are stored at once and no row is a call.
fn clear_columns(bytes: &mut [u8], w: usize, h: usize, start: usize, n: usize)
    requires { (length bytes.old ≡ h * w) × (start + n ≤ w) }
    ensures { bytes.new ≡ columns_zeroed w start n bytes.old }
{
    match n {
        4 => clear_each(bytes, w, h, start, 4),
        8 => clear_each(bytes, w, h, start, 8),
        12 => clear_each(bytes, w, h, start, 12),
        _ => clear_each(bytes, w, h, start, n),
    }
}

// Sets each byte to zero that came from another row: the first columns, or the last.
fn clear_exposed(bytes: &mut [u8], w: usize, h: usize, dx: ByteOffset)
    requires { (length bytes.old ≡ h * w) × OneWay (along dx) × (dx.plus + dx.minus < w) }
    ensures { bytes.new ≡ inside_kept (along dx) w bytes.old }
{
    if 0 < dx.plus {
        clear_columns(bytes, w, h, 0, dx.plus);
        return;
    }
    if 0 < dx.minus {
        clear_columns(bytes, w, h, w - dx.minus, dx.minus);
    }
}

// Whether nothing of a plane of w by h lies inside once it is moved by dx and dy.
fn moved_out(w: usize, h: usize, dx: ByteOffset, dy: Offset) -> bool
    requires { OneWay (along dx) × OneWay dy }
    ensures { result ≡ moved_out w (along dx) || moved_out h dy }
{
    w <= dx.plus + dx.minus || h <= dy.plus + dy.minus
}

// Moves a plane of h rows of w bytes by dx and dy, all rows as one line, by dy rows and dx bytes at once;
// what that brought in from another row is then cleared.
fn move_flat(bytes: &mut [u8], w: usize, h: usize, dx: ByteOffset, dy: Offset)
    requires { (length bytes.old ≡ h * w) × OneWay (along dx) × OneWay dy × (dx.plus + dx.minus < w) × (dy.plus + dy.minus < h) }
    ensures { bytes.new ≡ plane_shifted (along dx) dy w h bytes.old }
{
    slide(
        bytes,
        ByteOffset {
            plus: dy.plus * w + dx.plus,
            minus: dy.minus * w + dx.minus,
        },
    );
    clear_exposed(bytes, w, h, dx);
}

// Which of n rows turn k moves: no row is overwritten before it is read.
fn turn_row(dy: Offset, n: usize, k: usize) -> usize
    requires { k < n }
    ensures { result ≡ turn_row dy n k }
{
    if 0 < dy.plus { n - 1 - k } else { k }
}

// Moves a plane of h rows of w bytes by dx and dy, row by row: only what stays inside is moved.
fn move_rows(bytes: &mut [u8], w: usize, h: usize, dx: ByteOffset, dy: Offset)
    requires { (length bytes.old ≡ h * w) × OneWay (along dx) × OneWay dy × (dx.plus + dx.minus < w) × (dy.plus + dy.minus < h) }
    ensures { bytes.new ≡ plane_shifted (along dx) dy w h bytes.old }
{
    let down = dy.plus;
    let up = dy.minus;
    let kept = h - (down + up);
    for k in 0..kept {
        let r = turn_row(dy, kept, k);
        move_run(bytes, (r + up) * w, (r + down) * w, w, dx);
    }
    clear_run(bytes, 0, down * w);
    clear_run(bytes, (down + kept) * w, up * w);
}

// Moves a plane of h rows of w bytes by dx and dy: row by row where much of each row leaves it, else as one line, which
// is the quicker for narrow planes and for small moves. Much is more than a quarter of the row and 32 bytes: at less, what
// the one line moves and then clears costs less than a call for each row.
pub fn move_plane(bytes: &mut [u8], w: usize, h: usize, dx: ByteOffset, dy: Offset)
    requires { (length bytes.old ≡ h * w) × OneWay (along dx) × OneWay dy }
    ensures { bytes.new ≡ plane_shifted (along dx) dy w h bytes.old }
{
    if moved_out(w, h, dx, dy) {
        let n = bytes.len();
        clear_run(bytes, 0, n);
        return;
    }
    if w / 4 + 32 < dx.plus + dx.minus {
        move_rows(bytes, w, h, dx, dy);
        return;
    }
    move_flat(bytes, w, h, dx, dy);
}

// Moves h rows of w elements of `lanes` bytes by dx and dy, each rounded to whole elements and held to the side: farther than that nothing stays inside.
fn offset_elements(bytes: &mut [u8], lanes: usize, size: FullSize, dx: f32, dy: f32)
    requires fact_1 { lanes ≤ 4 }
    requires fact_2 { ElementsReady lanes size bytes.old dx dy }
    ensures { bytes.new ≡ elements_shifted lanes dx dy size.w size.h bytes.old }
{
    let w = size.width();
    let h = size.height();
    let across = binary32::round_offset(dx, w);
    let down = binary32::round_offset(dy, h);
    move_plane(
        bytes,
        lanes * w,
        h,
        ByteOffset {
            plus: lanes * across.plus,
            minus: lanes * across.minus,
        },
        down,
    );
}

// Moves a picture by dx and dy, each rounded to whole pixels.
pub fn offset_pixels(picture: &mut [u8], size: FullSize, dx: f32, dy: f32)
    requires { ShiftReady size picture.old dx dy }
    ensures { picture.new ≡ shifted_picture (whole_offset dx) (whole_offset dy) size.w size.h picture.old }
{
    offset_elements(picture, 4, size, dx, dy);
}

// Moves one plane of single bytes by dx and dy, each rounded to whole pixels.
pub fn offset_plane(plane: &mut [u8], size: FullSize, dx: f32, dy: f32)
    requires { ElementsReady 1 size plane.old dx dy }
    ensures { plane.new ≡ plane_shifted (whole_offset dx) (whole_offset dy) size.w size.h plane.old }
{
    offset_elements(plane, 1, size, dx, dy);
}

// Refusal 7's condition, of two offsets.
#[tactic(auto, unfolding(crate::specs::Outcome::wrong_offsets))]
pub fn wrong_offsets(dx: f32, dy: f32) -> bool
    ensures { result ≡ wrong_offsets dx dy }
{
    !binary32::is_finite(dx) || !binary32::is_finite(dy)
}

// The first of refusals 1, 2 and 7 that fits; of the picture's length.
#[tactic(auto, unfolding(picture::specs::Refusal::number_of, picture::specs::Refusal::number, picture::specs::Refusal::first_of, picture::specs::Refusal::first_else))]
pub fn check_shift(picture: usize, w: u32, h: u32, dx: f32, dy: f32) -> Result<(), Refusal>
    ensures { number_of result ≡ first_of (shift_checks picture w h dx dy) }
{
    picture::check_picture(picture, w, h)?;
    refuse_if(wrong_offsets(dx, dy), Refusal::NotFinite)
}

// Moves a picture of w by h pixels by dx and dy, rounded to whole pixels.
pub fn shift(picture: &mut [u8], w: u32, h: u32, dx: f32, dy: f32) -> Result<(), Refusal>
    ensures { answered (number_of result) picture.new ≡ shift_outcome picture.old w h dx dy }
{
    check_shift(picture.len(), w, h, dx, dy)?;
    offset_pixels(picture, picture::full_size(w, h), dx, dy);
    Ok(())
}
