// The bytes of a block, multiplied by their factors.
ghost use Rattle.std.specs.Prelude.{◌≡◌, length, get_or};
ghost use Rattle.picture.specs.Build.{build};
ghost use Rattle.pixels.specs.Channels.{premultiply};

use pixels::premultiply;

// Byte by byte, so that many are multiplied at once.
pub fn multiply(picture: &mut [u8], body: &[u8], factors: &[u8])
    requires fact_1 { length picture.old ≡ length body.now }
    requires fact_2 { length factors.now ≡ length body.now }
    ensures { picture.new ≡ build (length body.now) (λ j. premultiply (get_or body.now j 0) (get_or factors.now j 0)) }
{
    for i in 0..picture.len() {
        picture[i] = premultiply(body[i], factors[i]);
    }
}
