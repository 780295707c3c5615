// The testers' image files, Netpbm PAM: their header, written and read by one spelling.
#![tactic(auto)]

ghost use Rattle.std.specs.Prelude.{◌≡◌, false, ◌+◌, ◌^◌, ◌≤◌, length};
ghost use Rattle.picture.specs.Planes.{laid};
ghost use Rattle.picture.specs.Refusal.{wrong_sides};
ghost use Rattle.pam_format.specs.Header.{digit_count, digit, decimal, header, written_at};
ghost use Rattle.pam_format.specs.Format.{side_at, width_in, height_in, begins_with, file_length, is_pam, has_sides};

use pixels::copy_bytes;

// How many digits a number below 100000 has.
#[tactic(auto, using(crate::proofs::Counts::one_digit, crate::proofs::Counts::two_digits, crate::proofs::Counts::three_digits, crate::proofs::Counts::four_digits, crate::proofs::Counts::five_digits))]
fn digits(n: u32) -> usize
    ensures { result ≡ digit_count n }
{
    if n < 10 {
        return 1;
    }
    if n < 100 {
        return 2;
    }
    if n < 1000 {
        return 3;
    }
    if n < 10000 { 4 } else { 5 }
}

// The digit of a number at 10 to the power k, as its character.
fn digit(n: u32, k: usize) -> u8
    requires { k ≤ 4 }
    ensures { result ≡ digit n k }
{
    b'0' + (n / 10u32.pow(k as u32) % 10) as u8
}

// Writes a number in decimal, the highest digit first.
fn write_decimal(out: &mut [u8], n: u32)
    requires { length out.old ≡ digit_count n }
    ensures { out.new ≡ decimal n }
{
    let length = out.len();
    for i in 0..length {
        out[i] = digit(n, length - (i + 1));
    }
}

// Writes a number into a line from `at` on, and answers the place after it.
fn put_number(line: &mut [u8], at: usize, n: u32) -> usize
    requires { at + digit_count n ≤ length line.old }
    ensures { (result ≡ at + length (decimal n)) × (line.new ≡ written_at at (decimal n) line.old) }
{
    let end = at + digits(n);
    write_decimal(&mut line[at..end], n);
    end
}

// Writes a text into a line from `at` on, and answers the place after it.
fn put_text(line: &mut [u8], at: usize, text: &[u8]) -> usize
    requires { at + length text.now ≤ length line.old }
    ensures { (result ≡ at + length text.now) × (line.new ≡ written_at at text.now line.old) }
{
    let end = at + text.len();
    copy_bytes(&mut line[at..end], text);
    end
}

// How long the header is.
pub fn header_length(w: u32, h: u32) -> usize
    ensures { result ≡ length (header w h) }
{
    63 + digits(w) + digits(h)
}

// Writes the header to the front of a line, and answers its length.
pub fn write_header(line: &mut [u8], w: u32, h: u32) -> usize
    requires { length (header w h) ≤ length line.old }
    ensures { (result ≡ length (header w h)) × (line.new ≡ laid (header w h) line.old) }
{
    let width = put_text(line, 0, b"P7\nWIDTH ");
    let name = put_number(line, width, w);
    let height = put_text(line, name, b"\nHEIGHT ");
    let rest = put_number(line, height, h);
    put_text(
        line,
        rest,
        b"\nDEPTH 4\nMAXVAL 255\nTUPLTYPE RGB_ALPHA\nENDHDR\n",
    )
}

// How long the file of a picture of these sides is.
pub fn file_length(w: u32, h: u32) -> usize
    requires { wrong_sides w h ≡ false }
    ensures { result ≡ file_length w h }
{
    header_length(w, h) + picture::full_size(w, h).bytes()
}

// The number at a place of a file.
fn number_at(file: &[u8], at: usize) -> u32
    ensures { result ≡ side_at file.now at }
{
    let mut value = 0;
    for i in at..file.len() {
        let byte = file[i];
        if !byte.is_ascii_digit() {
            return value;
        }
        if 9999 < value {
            return value;
        }
        value = 10 * value + u32::from(byte - b'0');
    }
    value
}

// The width, where the header has it.
pub fn width_in(file: &[u8]) -> u32
    ensures { result ≡ width_in file.now }
{
    number_at(file, 9)
}

// The height, where the header has it.
pub fn height_in(file: &[u8]) -> u32
    ensures { result ≡ height_in file.now }
{
    number_at(file, 17 + digits(width_in(file)))
}

// Whether a file begins with some bytes.
fn starts_with(file: &[u8], head: &[u8]) -> bool
    requires { length head.now ≤ length file.now }
    ensures { result ≡ begins_with head.now file.now }
{
    file.starts_with(head)
}

// Whether a file begins with the header of these sides.
fn has_header(file: &[u8], w: u32, h: u32) -> bool
    requires { length (header w h) ≤ length file.now }
    ensures { result ≡ begins_with (header w h) file.now }
{
    let mut line = [0u8; 80];
    let end = write_header(&mut line, w, h);
    starts_with(file, &line[..end])
}

// Whether a file is one of these sides.
fn has_sides(file: &[u8], w: u32, h: u32) -> bool
    ensures { result ≡ has_sides file.now w h }
{
    if picture::wrong_sides(w, h) {
        return false;
    }
    if file.len() != file_length(w, h) {
        return false;
    }
    has_header(file, w, h)
}

// Whether some bytes are a PAM file.
pub fn is_pam(file: &[u8]) -> bool
    ensures { result ≡ is_pam file.now }
{
    has_sides(file, width_in(file), height_in(file))
}
