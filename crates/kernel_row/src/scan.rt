// The scan for the first pixel with a colour above its alpha.
ghost use Rattle.std.specs.Prelude.{◌≡◌, ◌+◌, ◌*◌, ◌≤◌, not, length};
ghost use Rattle.pixel.specs.Bytes.{valid?, first_invalid};
ghost use Rattle.pixel.specs.Word.{unpacked};
ghost use Rattle.kernel_row.specs.Code.{all_valid?, marked?};

use pixel::bytes;

// Whether a colour of the pixel v exceeds its alpha.
fn exceeds(v: u32) -> bool
    ensures { result ≡ not (valid? (unpacked v)) }
{
    let a = v / 16777216;
    (v % 256 > a) | (v / 256 % 256 > a) | (v / 65536 % 256 > a)
}

// Whether the top bit of a half of m is set.
fn marked(m: u32) -> bool
    ensures { result ≡ marked? m }
{
    m / 32768 % 2 + m / 2147483648 % 2 > 0
}

// Marks a pixel with a colour above its alpha. R and B, then G and A, are taken from the alpha in the halves of a word: the first
// difference below zero sets the top bit of its half.
fn marks_of(v: u32) -> u32
    ensures { marked? result ≡ not (valid? (unpacked v)) }
{
    let a = v / 16777216;
    let twice = a * 65537;
    let first = twice.wrapping_sub(v % 256 + v / 65536 % 256 * 65536);
    first | twice.wrapping_sub(v / 256 % 256 + a * 65536)
}

// Whether a colour exceeds its alpha in a row of n pixels. The marks are gathered and looked at once, which costs less than a test of
// each colour.
fn any_exceeds(s: &[u8], n: usize) -> bool
    requires { 4 * n ≤ length s.now }
    ensures { result ≡ not (all_valid? s.now n) }
{
    let mut marks: u32 = 0;
    for x in 0..n {
        marks |= marks_of(bytes::word(s, 4 * x));
    }
    marked(marks)
}

// The first pixel, of h rows of w pixels, with a colour above its alpha, counted from 0; w * h where there is none.
pub fn first_invalid(s: &[u8], w: usize, h: usize) -> usize
    requires { length s.now ≡ 4 * (w * h) }
    ensures { result ≡ first_invalid s.now (w * h) }
{
    let mut found = w * h;
    let mut p: usize = 0;
    'rows: for y in 0..h {
        let o = 4 * p;
        let e = o + 4 * w;
        if any_exceeds(&s[o..e], w) {
            for x in 0..w {
                if exceeds(bytes::word(s, 4 * (p + x))) {
                    found = p + x;
                    break 'rows;
                }
            }
        }
        p += w;
    }
    found
}
