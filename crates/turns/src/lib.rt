// Lines turned: the first element of each line, then the second of each, up to the last, so that short lines become few long ones.
#![tactic(auto)]

ghost use Rattle.std.specs.Prelude.{◌≡◌, ℕ, ◌+◌, ◌*◌, ◌/◌, ◌%◌, ◌≤◌, ◌<◌, length, get_or};
ghost use Rattle.picture.specs.Spans.{Run};
ghost use Rattle.turns.specs.Turned.{turned, Turnable};

use pixels::copy_run;

// Four bytes from p on into dst from q on. All are read before one is written, so that the compiler moves them at once.
fn copy_four(src: &[u8], p: usize, dst: &mut [u8], q: usize)
    requires fact_1 { p + 4 ≤ length src.now }
    requires fact_2 { q + 4 ≤ length dst.old }
    ensures { Run 0 dst.old dst.new q 4 (λ k. get_or src.now (p + k) 0) }
{
    let a = src[p];
    let b = src[p + 1];
    let c = src[p + 2];
    let d = src[p + 3];
    dst[q] = a;
    dst[q + 1] = b;
    dst[q + 2] = c;
    dst[q + 3] = d;
}

// One element of `size` bytes, from p on, into dst from q on.
fn copy_element(src: &[u8], p: usize, dst: &mut [u8], q: usize, size: usize)
    requires fact_1 { p + size ≤ length src.now }
    requires fact_2 { q + size ≤ length dst.old }
    ensures { Run 0 dst.old dst.new q size (λ k. get_or src.now (p + k) 0) }
{
    if size == 4 {
        copy_four(src, p, dst, q);
    } else {
        copy_run(src, p, dst, q, size);
    }
}

// `count` elements that stand `step` bytes apart, from p on, one after the other into dst from q on.
fn gather(src: &[u8], p: usize, step: usize, dst: &mut [u8], q: usize, count: usize, size: usize)
    requires fact_1 { ((y : ℕ) → y < count → p + y * step + size ≤ length src.now) }
    requires fact_2 { q + count * size ≤ length dst.old }
    ensures { Run 0 dst.old dst.new q (count * size) (λ j. get_or src.now (p + j / size * step + j % size) 0) }
{
    for y in 0..count {
        copy_element(src, p + y * step, dst, q + y * size, size);
    }
}

// `lines` lines of len elements of `size` bytes each, turned.
fn turn_elements(src: &[u8], dst: &mut [u8], lines: usize, len: usize, size: usize)
    requires { Turnable src.now dst.old lines len size }
    ensures { dst.new ≡ turned src.now lines len size }
{
    for x in 0..len {
        gather(
            src,
            x * size,
            len * size,
            dst,
            x * (lines * size),
            lines,
            size,
        );
    }
}

// The same of pixels. A few lines, as those are that a narrow picture is turned back from, are a number that the compiler knows: so it copies
// an element of each at once, and makes no loop of two or three turns for every element.
fn turn_pixels(src: &[u8], dst: &mut [u8], lines: usize, len: usize)
    requires { Turnable src.now dst.old lines len 4 }
    ensures { dst.new ≡ turned src.now lines len 4 }
{
    match lines {
        1 => turn_elements(src, dst, 1, len, 4),
        2 => turn_elements(src, dst, 2, len, 4),
        3 => turn_elements(src, dst, 3, len, 4),
        _ => turn_elements(src, dst, lines, len, 4),
    }
}

// The same of any elements. Four bytes, a pixel, and one, of a plane, are numbers that the compiler knows, so that an element is copied at once.
pub fn turn(src: &[u8], dst: &mut [u8], lines: usize, len: usize, size: usize)
    requires { Turnable src.now dst.old lines len size }
    ensures { dst.new ≡ turned src.now lines len size }
{
    match size {
        4 => turn_pixels(src, dst, lines, len),
        1 => turn_elements(src, dst, lines, len, 1),
        _ => turn_elements(src, dst, lines, len, size),
    }
}
