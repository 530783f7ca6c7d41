ghost use Rattle.std.specs.Prelude.{◌≡◌, ◌+◌, ◌*◌, ◌/◌, ◌≤◌, ◌<◌, ◌^◌};
ghost use Rattle.kernel_sums.specs.Reciprocal.{Divides, LargestBelow, ceiling};

// Divides by a product and two shifts.
#[derive(Clone, Copy)]
pub struct Reciprocal {
    pub mul: u16,
    pub shift: u16,
}

// The reciprocal of a size: 65536 * 2^shift / size rounded up, where 2^shift is the largest power below size.
pub fn candidate(size: usize) -> Reciprocal
    requires { (2 ≤ size) × (size ≤ 257) }
    ensures mul { result.mul ≡ ceiling (2 ^ result.shift * 65536) size }
    ensures shift { LargestBelow result.shift size }
{
    let shift = (size - 1).ilog2();
    let mul = ((65536 << shift) + (size - 1)) / size;
    Reciprocal {
        mul: mul as u16,
        shift: shift as u16,
    }
}

// The same for the size of a box, where it divides every sum.
pub fn reciprocal_of(size: usize) -> Reciprocal
    requires { (2 ≤ size) × (size ≤ 61) }
    ensures { (result.mul ≡ ceiling (2 ^ result.shift * 65536) size) × LargestBelow result.shift size × Divides result.mul result.shift size }
{
    candidate(size)
}

// Shifted in 16 bits, of which the compiler makes whole vectors.
fn scaled(t: u16, by: Reciprocal) -> u8
    requires { (by.shift < 16) × (t * by.mul < 4294967296) × (t * by.mul / 65536 / 2 ^ by.shift < 256) }
    ensures { result ≡ t * by.mul / 65536 / 2 ^ by.shift }
{
    (((u32::from(t) * u32::from(by.mul) / 65536) as u16) >> by.shift) as u8
}

// A sum of size bytes, with half of size added, by size.
pub fn mean(t: u16, by: Reciprocal, size: usize) -> u8
    requires { Divides by.mul by.shift size × (t ≤ 255 * size + size / 2) }
    ensures { result ≡ t / size }
{
    scaled(t, by)
}
