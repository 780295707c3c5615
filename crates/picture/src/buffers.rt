// Bytes of a lent buffer cleared and moved.
ghost use Rattle.std.specs.Prelude.{◌≡◌, ◌+◌, ◌≤◌, length};
ghost use Rattle.picture.specs.Planes.{cleared};
ghost use Rattle.picture.specs.Buffers.{copied};

// Sets the first n bytes of a work buffer to zero.
pub fn clear(work: &mut [u8], n: usize)
    requires { n ≤ length work.old }
    ensures { work.new ≡ cleared n work.old }
{
    work[..n].fill(0);
}

// Copies the n bytes from `from` on to a place not before, the last first, so that none is read after it is overwritten.
fn copy_forward(bytes: &mut [u8], from: usize, to: usize, n: usize)
    requires { (from ≤ to) × (to + n ≤ length bytes.old) }
    ensures { bytes.new ≡ copied n from to bytes.old }
{
    for k in 0..n {
        let i = n - (k + 1);
        bytes[to + i] = bytes[from + i];
    }
}

// Copies the n bytes from `from` on to a place not after, the first first.
fn copy_back(bytes: &mut [u8], from: usize, to: usize, n: usize)
    requires { (to ≤ from) × (from + n ≤ length bytes.old) }
    ensures { bytes.new ≡ copied n from to bytes.old }
{
    for i in 0..n {
        bytes[to + i] = bytes[from + i];
    }
}

// Copies the n bytes from `from` on to the place `to`, as if none were overwritten before it is read. It counts itself, since the library's
// `copy_within` calls `memmove`, and who links the archive for C has to have `memcpy` and `memset` alone.
pub fn move_bytes(bytes: &mut [u8], from: usize, to: usize, n: usize)
    requires { (from + n ≤ length bytes.old) × (to + n ≤ length bytes.old) }
    ensures { bytes.new ≡ copied n from to bytes.old }
{
    if from < to {
        copy_forward(bytes, from, to, n);
    } else {
        copy_back(bytes, from, to, n);
    }
}
