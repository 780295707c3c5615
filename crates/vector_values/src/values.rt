// Numbers as what a call takes.
ghost use Rattle.std.specs.Prelude.{◌≡◌};
ghost use Rattle.vector_values.specs.Values.{word_of, half_of, float_of, byte_of, signed_of, all_under};

// The longest buffer of a vector.
pub const LONGEST: usize = 2048;

// The number of 32 bits.
pub fn word(x: u64) -> u32
    ensures { result ≡ word_of x }
{
    (x % 4294967296) as u32
}

// The number of 16 bits.
pub fn half(x: u64) -> u16
    ensures { result ≡ half_of x }
{
    (x % 65536) as u16
}

// The number of 32 bits as a signed one.
pub fn signed(x: u64) -> i32
    ensures { result ≡ signed_of x }
{
    word(x).cast_signed()
}

// The binary32 of a bit pattern, where no bits make a NaN.
pub fn float(x: u64) -> f32
    ensures { result ≡ float_of x }
{
    let w = word(x);
    if 2139095040 < w % 2147483648 {
        return f32::NAN;
    }
    f32::from_bits(w)
}

// Whether each number is below a bound.
#[tactic(auto, unfolding(crate::specs::Values::all_under))]
pub fn all_under(v: &[u64], bound: u64) -> bool
    ensures { result ≡ all_under v.now bound }
{
    v.iter().all(|x| *x < bound)
}

// The number of 8 bits.
pub fn byte(x: u64) -> u8
    ensures { result ≡ byte_of x }
{
    (x % 256) as u8
}
