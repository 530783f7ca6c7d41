// Rows converted and remapped without a table, which costs more to make than it saves where there are few pixels.
ghost use Rattle.std.specs.Prelude.{◌≡◌, cond, ◌+◌, ◌*◌, ◌≤◌, eqb, length, get_or};
ghost use Rattle.pixel.specs.Alpha.{Valid, premultiplied, unpremultiplied};
ghost use Rattle.pixel.specs.Bytes.{pixel_at, Painted, ValidRow};
ghost use Rattle.pixel.specs.Remap.{remapped};
ghost use Rattle.pixel.specs.Space.{space_maps};
ghost use Rattle.pixel.specs.Word.{Packed};
ghost use Rattle.window.specs.Limits.{longest_side};
ghost use Rattle.kernel_remap.specs.Remaps.{maps_in};

use pixel::alpha::premultiply;
use pixel::convert::convert_pair;
use pixel::{Pixel, Space, bytes};

// The pixel whose four bytes start at i, converted, as one number.
fn convert_at(to: Space, row: &[u8], i: usize) -> u32
    requires { i + 4 ≤ length row.now }
    ensures { Packed (remapped (space_maps to) (pixel_at row.now i)) result }
{
    let a = row[i + 3];
    bytes::pack(Pixel {
        r: convert_pair(to, row[i], a),
        g: convert_pair(to, row[i + 1], a),
        b: convert_pair(to, row[i + 2], a),
        a,
    })
}

// The first `count` pixels of a row, in place.
pub fn convert_few(to: Space, row: &mut [u8], count: usize)
    requires { (count ≤ longest_side) × (4 * count ≤ length row.old) }
    ensures { Painted (λ j. remapped (space_maps to) (pixel_at row.old (4 * j))) 0 0 count row.old row.new }
{
    for x in 0..count {
        let v = convert_at(to, &row[..], 4 * x);
        bytes::put(row, 4 * x, v);
    }
}

// The colour c at the alpha a, unpremultiplied; at the alpha 0, where c is 0, a division by 1 gives 0 with no branch of its own.
fn unpremultiply(c: u8, a: u8) -> u8
    requires { c ≤ a }
    ensures { result ≡ unpremultiplied c a }
{
    ((255 * (c as u32) + (a as u32) / 2) / (a as u32).max(1)) as u8
}

// The colour c of the alpha a, by the map that starts at m, premultiplied by the new alpha b.
fn remap_color(maps: &[u8], m: usize, c: u8, a: u8, b: u8) -> u8
    requires { (m + 256 ≤ length maps.now) × (c ≤ a) }
    ensures { result ≡ premultiplied (get_or maps.now (m + unpremultiplied c a) 0) b }
{
    premultiply(maps[m + unpremultiply(c, a) as usize], b)
}

// The pixel whose four bytes start at i, by four maps, as one number.
fn remap_at(maps: &[u8], src: &[u8], i: usize) -> u32
    requires { (length maps.now ≡ 1024) × Valid (pixel_at src.now i) × (i + 4 ≤ length src.now) }
    ensures { Packed (remapped (maps_in maps.now) (pixel_at src.now i)) result }
{
    let a = src[i + 3];
    let b = maps[768 + a as usize];
    bytes::pack(Pixel {
        r: remap_color(maps, 0, src[i], a, b),
        g: remap_color(maps, 256, src[i + 1], a, b),
        b: remap_color(maps, 512, src[i + 2], a, b),
        a: b,
    })
}

// A row of n pixels by four maps.
pub fn remap_few(maps: &[u8], src: &[u8], dst: &mut [u8], n: usize)
    requires { (length maps.now ≡ 1024) × ValidRow src.now n × (length src.now ≡ 4 * n) × (length dst.old ≡ 4 * n) }
    ensures { Painted (λ x. remapped (maps_in maps.now) (pixel_at src.now (4 * x))) 0 0 n dst.old dst.new }
{
    for x in 0..n {
        let v = remap_at(maps, src, 4 * x);
        bytes::put(dst, 4 * x, v);
    }
}
