// A channel divided by its alpha, in binary32: a loop over it runs on several pixels at once.
#![tactic(auto)]

ghost use Rattle.std.specs.Prelude.{◌≡◌, ◌+◌, ◌*◌, ◌≤◌};
ghost use Rattle.unmultiply.specs.Outward.{outward, Added};

// The base and 255c / a, to the nearest whole number of units, those of the last of the base's 24 binary digits, halves upward; the base alone when
// a is 0. A little more than 255 takes each half upward. What is added to the alpha is lost in it, but where the alpha is 0.
fn added(c: u32, a: u32, base: f32) -> f32
    requires fact_1 { c ≤ 16777216 }
    requires fact_2 { a ≤ 255 }
    ensures { Added c a base result }
{
    let scale = 255.0009765625 / (a as f32 + 0.000000001);
    c as f32 * scale + base
}

// The nearest whole number to 255c / a, halves upward, or 0 when a is 0. It is worked out in units of 65536, where a word has its third byte, and is
// in the lowest bits of the sum with 2^23 + 46336 of them. What is more than 2^23 makes what this function and the next take away come to 2^32 in
// a word of both, so that the compiler takes nothing away.
pub fn unmultiply(c: u32, a: u32) -> u32
    requires fact_1 { c ≤ a }
    requires fact_2 { a ≤ 255 }
    ensures { result ≡ outward c a }
{
    f32::to_bits(added(c * 65536, a, 552792489984.0)) - 1392555264
}

// The same of the first two bytes of a word, as the two bytes of a number. The second is worked out in units of 256, where it stands, and added to 2^23
// of them. Less 255 times 2^23 that is 2^23 and the second in its place: what the first is added to.
pub fn unmultiply_two(low: u32, high: u32, a: u32) -> u32
    requires fact_1 { low ≤ a }
    requires fact_2 { high ≤ a }
    requires fact_3 { a ≤ 255 }
    ensures { result ≡ outward low a + 256 * outward high a }
{
    let base = added(high * 256, a, 2147483648.0) - 2139095040.0;
    f32::to_bits(added(low, a, base)) - 1258291200
}
