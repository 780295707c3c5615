// Halving and doubling of lines, rows and columns alike: the outputs at the two ends by the edge rule, those between with no test.
#![tactic(auto)]

ghost use Rattle.std.specs.Prelude.{◌≡◌, ◌+◌, ◌-◌, ◌*◌, ◌<◌};
ghost use Rattle.picture.specs.Sizes.{side_room};
ghost use Rattle.passes.specs.Written.{line_byte, passed};
ghost use Rattle.blend.specs.Tapped.{LineRoom, Output, tapped};
ghost use Rattle.blend.specs.Parts.{Room, PassPartInside};
ghost use Rattle.resize.specs.Resize.{pass_of, inner_to};
ghost use Rattle.picture.specs.declared.EdgeMode.{EdgeMode};
ghost use Rattle.resize.specs.Room.{ResizeLines, EndsRoom, Parts};

use blend::{Taps, blend_element, double_inside, double_taps, halve_inside, halve_taps};
use picture::EdgeMode;

// Whether a line is halved or doubled. It is a value, and no trait with two types, as the contracts speak of it (`pass_of kind`) and only two
// functions ask for it: a trait would be no plainer.
#[derive(Clone, Copy)]
pub enum Resize {
    Halve,
    Double,
}

// What output y of a line of len elements is made of, by kind.
fn output_taps(len: usize, stride: usize, y: usize, mode: EdgeMode, kind: Resize) -> Taps
    requires { (y < 2 * side_room) × LineRoom len stride }
    ensures { Output (pass_of kind mode) len stride y result }
{
    match kind {
        Resize::Halve => halve_taps(len, stride, y, mode),
        Resize::Double => double_taps(len, stride, y, mode),
    }
}

// The outputs of a line whose samples all lie inside, into the line at o: one of each two elements, or two between each two.
fn resize_inner(
    src: &[u8],
    start: usize,
    stride: usize,
    len: usize,
    dst: &mut [u8],
    o: usize,
    kind: Resize,
)
    requires { Room src.now dst.old start stride len o (inner_to kind len) }
    ensures { PassPartInside (pass_of kind) src.now dst.old dst.new start stride len o 1 (inner_to kind len) }
{
    match kind {
        Resize::Halve => {
            for x in 1..1 + len.saturating_sub(3) / 2 {
                halve_inside(src, start, stride, len, dst, o, x);
            }
        }
        Resize::Double => {
            for y in 0..len - 1 {
                double_inside(src, start, stride, len, dst, o, y);
            }
        }
    }
}

// One output of each of `lines` lines of len elements that become lines of out: the taps of the line, blended into the bytes from `at` on. The ends
// of all lines are made in a loop of their own, in which the compiler asks once how wide an element is.
fn blend_ends(
    src: &[u8],
    dst: &mut [u8],
    lines: usize,
    len: usize,
    out: usize,
    stride: usize,
    t: Taps,
    at: usize,
)
    requires { EndsRoom src.now dst.old lines len out stride t at }
    ensures { Parts dst.old dst.new lines (out * stride) at (at + stride) (λ y r. tapped src.now (y * (len * stride)) t (r - at)) }
{
    let read = len * stride;
    let made = out * stride;
    for y in 0..lines {
        blend_element(src, y * read, stride, t, dst, y * made + at);
    }
}

// The outputs of each of `lines` lines whose samples all lie inside.
fn inner_lines(
    src: &[u8],
    dst: &mut [u8],
    lines: usize,
    len: usize,
    out: usize,
    stride: usize,
    kind: Resize,
)
    requires { ResizeLines kind src.now dst.old lines len out stride }
    ensures { (mode : EdgeMode) → Parts dst.old dst.new lines (out * stride) stride (inner_to kind len * stride) (λ y r. line_byte (pass_of kind mode) src.now (y * (len * stride)) len stride r) }
{
    let read = len * stride;
    let made = out * stride;
    for y in 0..lines {
        resize_inner(src, y * read, stride, len, dst, y * made, kind);
    }
}

// Each of `lines` lines of len elements made one of out elements. The rows of a picture are h lines of stride 4, those of a plane h lines
// of stride 1; the columns are one line of stride 4w, or w. What the first output and the last are made of is found once for all lines.
pub fn resize_lines(
    src: &[u8],
    dst: &mut [u8],
    lines: usize,
    len: usize,
    out: usize,
    stride: usize,
    mode: EdgeMode,
    kind: Resize,
)
    requires { ResizeLines kind src.now dst.old lines len out stride }
    ensures { dst.new ≡ passed (pass_of kind mode) src.now lines len out stride }
{
    let first = output_taps(len, stride, 0, mode, kind);
    let last = output_taps(len, stride, out - 1, mode, kind);
    blend_ends(src, dst, lines, len, out, stride, first, 0);
    inner_lines(src, dst, lines, len, out, stride, kind);
    blend_ends(src, dst, lines, len, out, stride, last, (out - 1) * stride);
}
