// Tables of byte pairs: for every colour at every alpha what a map of bytes makes of it. They are filled line by line, a line for each alpha.
ghost use Rattle.std.specs.Prelude.{◌≡◌, ◌+◌, ◌-◌, ◌*◌, ◌≤◌, ◌<◌, length, get_or};
ghost use Rattle.kernel_alpha.specs.Tables.{UnpremultiplyTable};
ghost use Rattle.window.specs.Store.{Filled};
ghost use Rattle.kernel_remap.specs.Code.{Mapped, seen_colour, unpremultiplied_at, line_entry};
ghost use Rattle.kernel_remap.specs.Pairs.{Pairs};
ghost use Rattle.kernel_remap.specs.Remaps.{Inner};

use kernel_alpha::unpremultiply::{prepare, unpremultiply};
use pixel::Space;
use pixel::alpha::premultiply;
use pixel::convert::convert_pair;

// The colours at full alpha, where premultiplying changes nothing: the table of the rules. The lines look into it, since `convert_pair` lays
// out its constant table in every call.
pub(crate) fn fill_map(to: Space, map: &mut [u8])
    requires { length map.old ≡ 256 }
    ensures { Mapped to map.new }
{
    for (c, entry) in map.iter_mut().enumerate() {
        *entry = convert_pair(to, c as u8, 255);
    }
}

// The colour c at the alpha a, converted where there is a table for it. Only the contract reads `to`, here and below.
fn seen(to: Space, inner: &[u8], c: usize, a: usize) -> u8
    requires { Inner to inner.now × (c ≤ a) × (a < 256) }
    ensures { (result ≡ seen_colour to inner.now c a) × (result ≤ a) }
{
    if inner.is_empty() {
        return c as u8;
    }
    inner[256 * a + c]
}

// The colours up to the alpha a, unpremultiplied: each once, however many maps look it up, and with no division.
pub(crate) fn fill_unpremultiplied(
    to: Space,
    inner: &[u8],
    inverse: &[u32],
    a: usize,
    line: &mut [u8],
)
    requires { Inner to inner.now × UnpremultiplyTable inverse.now × (a < 256) × (length line.old ≡ 256) }
    ensures { Filled (unpremultiplied_at to inner.now a) 0 (a + 1) line.old line.new }
{
    let part = &mut line[..a + 1];
    for (c, entry) in part.iter_mut().enumerate() {
        *entry = unpremultiply(inverse, seen(to, inner, c, a), a as u8) as u8;
    }
}

// The entry for the colour c at the alpha a of the table that starts at t.
pub(crate) fn look(tables: &[u8], t: u32, c: u32, a: u32) -> u8
    requires { (t + 65536 ≤ length tables.now) × (t ≤ 131072) × (c < 256) × (a < 256) }
    ensures { result ≡ get_or tables.now (t + 256 * a + c) 0 }
{
    tables[(t + 256 * a + c) as usize]
}

// A line of a table, from the index o on: the colours of `line` by a map, premultiplied by the alpha b.
pub(crate) fn fill_line(map: &[u8], line: &[u8], table: &mut [u8], o: usize, b: u8)
    requires { (length map.now ≡ 256) × (length line.now ≤ 256) × (o + length line.now ≤ length table.old) }
    ensures { Filled (λ i. line_entry map.now line.now b (i - o)) o (o + length line.now) table.old table.new }
{
    let part = &mut table[o..o + line.len()];
    for (i, entry) in part.iter_mut().enumerate() {
        *entry = premultiply(map[line[i] as usize], b);
    }
}

// A colour above its alpha becomes 0, and so does every colour at the alpha 0.
pub(crate) fn fill_lines(to: Space, map: &[u8], table: &mut [u8])
    requires { Mapped to map.now × (length table.old ≡ 65536) }
    ensures { Pairs to table.new }
{
    table.fill(0);
    let mut inverse = [0u32; 512];
    prepare(&mut inverse);
    let mut line = [0u8; 256];
    for a in 1usize..256 {
        fill_unpremultiplied(to, &[], &inverse, a, &mut line);
        fill_line(map, &line[..a + 1], table, 256 * a, a as u8);
    }
}
