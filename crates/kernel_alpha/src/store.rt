// Whole pixels stored, and their alpha loaded.
ghost use Rattle.std.specs.Prelude.{◌≡◌, ◌+◌, ◌≤◌, ◌<◌, length, get_or};
ghost use Rattle.pixel.specs.Alpha.{pixel as pixel_of};
ghost use Rattle.pixel.specs.Bytes.{Painted};

// The pixel whose bytes start at the index i.
pub fn put(d: &mut [u8], i: usize, r: u8, g: u8, b: u8, a: u8)
    requires { i + 4 ≤ length d.old }
    ensures { Painted (λ x. pixel_of r g b a) i 0 1 d.old d.new }
{
    d[i] = r;
    d[i + 1] = g;
    d[i + 2] = b;
    d[i + 3] = a;
}

// The alpha of the pixel at the index i, by the word.
pub(crate) fn alpha(s: &[u8], i: usize) -> u32
    requires { i + 4 ≤ length s.now }
    ensures { (result ≡ get_or s.now (i + 3) 0) × (result < 256) }
{
    pixel::bytes::word(s, i) / 16777216
}
