// Halving and doubling of whole levels, in any form.
#![tactic(auto)]

ghost use Rattle.std.specs.Prelude.{◌≡◌, ◌*◌, ◌≤◌, take};
ghost use Rattle.picture.specs.Sizes.{side_room, half_level};
ghost use Rattle.passes.specs.Passes.{halve, double};
ghost use Rattle.passes.specs.Forms.{form_bytes, form_pass};
ghost use Rattle.passes.specs.Written.{passed};
ghost use Rattle.resize.specs.Resize.{pass_of};
ghost use Rattle.decimate.specs.Rows.{rows_of};
ghost use Rattle.decimate.specs.Room.{RowsRoom, Levels, LevelBuffers};

use passes::Form;
use picture::{EdgeMode, LevelSize};
use resize::Resize;

// Rows as lines: how many, and the bytes of an element.
#[derive(Clone, Copy)]
struct Rows {
    lines: usize,
    stride: usize,
}

// Rows of w elements that become v wide, as lines. No side is 0: where the two sum to 2, every row is one element and stays so, and all
// rows are one element of one line, since as many lines of a few bytes each cost far more.
fn rows_of(w: usize, lines: usize, lanes: usize, v: usize) -> Rows
    requires { (w ≤ side_room) × (lines ≤ 4 * side_room) × (lanes ≤ 4) × (v ≤ side_room) }
    ensures { result ≡ rows_of w lines lanes v }
{
    if w + v == 2 {
        return Rows {
            lines: 1,
            stride: lines * lanes,
        };
    }
    Rows {
        lines: lines,
        stride: lanes,
    }
}

// Short lines, and many of them: turned, made others as one line, and turned back. What lies in picture is room for the one line.
fn resize_turned(
    picture: &mut [u8],
    scratch: &mut [u8],
    before: usize,
    between: usize,
    rows: Rows,
    w: usize,
    v: usize,
    mode: EdgeMode,
    kind: Resize,
)
    requires { RowsRoom kind picture.old scratch.old before between rows.lines w v rows.stride }
    ensures { take between scratch.new ≡ passed (pass_of kind mode) (take before picture.old) rows.lines w v rows.stride }
{
    let lines = rows.lines;
    let stride = rows.stride;
    let element = lines * stride;
    turns::turn(&picture[..before], &mut scratch[..before], lines, w, stride);
    resize::resize_lines(
        &scratch[..before],
        &mut picture[..between],
        1,
        w,
        v,
        element,
        mode,
        kind,
    );
    turns::turn(
        &picture[..between],
        &mut scratch[..between],
        v,
        lines,
        stride,
    );
}

// Whether it pays to turn lines of w elements that become v wide, and to turn them back. Single bytes, in lines too short for a vector, are made
// one by one, and four are made at once in any line: so it pays for longer lines of bytes than of pixels. Nothing rests on it but time: the
// bytes are the same either way.
fn pays(rows: Rows, w: usize, v: usize) -> bool {
    let most = if rows.stride == 1 { 16 } else { 7 };
    w <= most && v <= most && 64 <= rows.lines
}

// Lines that are a level's rows, `before` bytes of the picture, made others, `between` bytes of scratch.
fn resize_rows(
    picture: &mut [u8],
    scratch: &mut [u8],
    before: usize,
    between: usize,
    rows: Rows,
    w: usize,
    v: usize,
    mode: EdgeMode,
    kind: Resize,
)
    requires { RowsRoom kind picture.old scratch.old before between rows.lines w v rows.stride }
    ensures { take between scratch.new ≡ passed (pass_of kind mode) (take before picture.old) rows.lines w v rows.stride }
{
    if pays(rows, w, v) {
        resize_turned(picture, scratch, before, between, rows, w, v, mode, kind);
    } else {
        resize::resize_lines(
            &picture[..before],
            &mut scratch[..between],
            rows.lines,
            w,
            v,
            rows.stride,
            mode,
            kind,
        );
    }
}

// A level of size s made one of size t: rows to scratch, then columns back.
fn resize_form(
    picture: &mut [u8],
    scratch: &mut [u8],
    s: LevelSize,
    t: LevelSize,
    form: Form,
    mode: EdgeMode,
    kind: Resize,
)
    requires { Levels form kind picture.old scratch.old s t }
    ensures { take (form_bytes form t.w t.h) picture.new ≡ form_pass form (pass_of kind mode) s t (take (form_bytes form s.w s.h) picture.old) }
{
    let w = s.width();
    let h = s.height();
    let v = t.width();
    let u = t.height();
    let before = passes::form_bytes(form, s);
    let after = passes::form_bytes(form, t);
    let lines = form.planes * h;
    let stride = v * form.lanes;
    let between = lines * stride;
    let rows = rows_of(w, lines, form.lanes, v);
    resize_rows(picture, scratch, before, between, rows, w, v, mode, kind);
    resize::resize_lines(
        &scratch[..between],
        &mut picture[..after],
        form.planes,
        h,
        u,
        stride,
        mode,
        kind,
    );
}

// The level of size s, halved: its bytes are the first of the picture. It and `double_form` promise different things of the two buffers, so they
// stay two functions on the one above.
pub fn halve_form(picture: &mut [u8], scratch: &mut [u8], s: LevelSize, form: Form, mode: EdgeMode)
    requires { LevelBuffers form picture.old scratch.old s }
    ensures { take (form_bytes form (half_level s).w (half_level s).h) picture.new ≡ form_pass form (halve mode) s (half_level s) picture.old }
{
    resize_form(picture, scratch, s, s.half(), form, mode, Resize::Halve);
}

// The half of the level of size s, doubled: its bytes are the first of the picture.
pub fn double_form(picture: &mut [u8], scratch: &mut [u8], s: LevelSize, form: Form, mode: EdgeMode)
    requires { LevelBuffers form picture.old scratch.old s }
    ensures { picture.new ≡ form_pass form (double mode) (half_level s) s (take (form_bytes form (half_level s).w (half_level s).h) picture.old) }
{
    resize_form(picture, scratch, s.half(), s, form, mode, Resize::Double);
}
