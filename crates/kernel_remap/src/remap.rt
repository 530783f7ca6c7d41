// Four maps of bytes, one for each channel, on unpremultiplied colours. Their tables have the result for every colour at every alpha; a row
// is then worked by look-ups, with no branch on what a pixel holds, since pictures may be private.
ghost use Rattle.std.specs.Prelude.{◌≡◌, ◌+◌, ◌*◌, ◌≤◌, ◌<◌, length, get_or};
ghost use Rattle.pixel.specs.Bytes.{Painted};
ghost use Rattle.pixel.specs.Word.{Packed, unpacked};
ghost use Rattle.kernel_remap.specs.Code.{LinesFilled};
ghost use Rattle.kernel_remap.specs.Remaps.{Inner, Remaps, looked_up, looked_up_at};

use super::table::{fill_line, fill_unpremultiplied, look};
use kernel_alpha::unpremultiply::prepare;
use pixel::{Pixel, Space, bytes};

// The lines of the alpha a in the three tables.
fn fill_tables(maps: &[u8], line: &[u8], tables: &mut [u8], a: usize)
    requires { (length maps.now ≡ 1024) × (length line.now ≡ a + 1) × (length tables.old ≡ 196608) × (a < 256) }
    ensures { LinesFilled maps.now line.now a tables.old tables.new }
{
    let b = maps[768 + a];
    fill_line(&maps[..256], line, tables, 256 * a, b);
    fill_line(&maps[256..512], line, tables, 65536 + 256 * a, b);
    fill_line(&maps[512..768], line, tables, 131072 + 256 * a, b);
}

// The tables of four maps. Where `inner` is a table of the conversion to the space `to`, the conversion comes first, at no cost to a row; where
// it is empty, there is none. Only the contract reads `to`.
pub fn prepare_maps(to: Space, inner: &[u8], maps: &[u8], tables: &mut [u8])
    requires { Inner to inner.now × (length maps.now ≡ 1024) × (length tables.old ≡ 196608) }
    ensures { Remaps to inner.now maps.now tables.new }
{
    let mut inverse = [0u32; 512];
    prepare(&mut inverse);
    let mut line = [0u8; 256];
    for a in 0usize..256 {
        fill_unpremultiplied(to, inner, &inverse, a, &mut line);
        fill_tables(maps, &line[..a + 1], tables, a);
    }
}

// A pixel as one number, remapped.
fn remap_word(maps: &[u8], tables: &[u8], v: u32) -> u32
    requires { (length maps.now ≡ 1024) × (length tables.now ≡ 196608) }
    ensures { Packed (looked_up tables.now maps.now (unpacked v)) result }
{
    let a = v / 16777216;
    bytes::pack(Pixel {
        r: look(tables, 0, v % 256, a),
        g: look(tables, 65536, v / 256 % 256, a),
        b: look(tables, 131072, v / 65536 % 256, a),
        a: maps[(768 + a) as usize],
    })
}

// A row of n pixels.
pub fn remap_row(maps: &[u8], tables: &[u8], src: &[u8], dst: &mut [u8], n: usize)
    requires { (length maps.now ≡ 1024) × (length tables.now ≡ 196608) × (length src.now ≡ 4 * n) × (length dst.old ≡ 4 * n) }
    ensures { Painted (looked_up_at tables.now maps.now src.now) 0 0 n dst.old dst.new }
{
    for x in 0..n {
        let i = 4 * x;
        let v = bytes::word(src, i);
        bytes::put(dst, i, remap_word(maps, tables, v));
    }
}
