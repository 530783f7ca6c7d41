// Conversion between working spaces. The table of a space has the result for every colour at every alpha; a row is then worked by look-ups,
// with no branch on what a pixel holds, since pictures may be private.
#![tactic(auto)]

pub mod few;
pub mod remap;
mod table;

ghost use Rattle.std.specs.Prelude.{◌≡◌, ◌*◌, ◌≤◌, ◌<◌, length};
ghost use Rattle.pixel.specs.Bytes.{pixel_at, Painted};
ghost use Rattle.pixel.specs.Convert.{pair_of};
ghost use Rattle.pixel.specs.Remap.{remapped};
ghost use Rattle.pixel.specs.Space.{space_maps};
ghost use Rattle.pixel.specs.Word.{Packed, unpacked};
ghost use Rattle.window.specs.Limits.{longest_side};
ghost use Rattle.kernel_remap.specs.Pairs.{Pairs};

use pixel::{Pixel, Space, bytes};

// The table of the conversion to a space.
pub fn prepare(to: Space, table: &mut [u8])
    requires { length table.old ≡ 65536 }
    ensures { Pairs to table.new }
{
    let mut map = [0u8; 256];
    table::fill_map(to, &mut map);
    table::fill_lines(to, &map, table);
}

// A pixel as one number, converted. Only the contract reads `to`, here and below.
fn convert_word(to: Space, table: &[u8], v: u32) -> u32
    requires { Pairs to table.now }
    ensures { Packed (remapped (space_maps to) (unpacked v)) result }
{
    let a = v / 16777216;
    let alpha = a as u8;
    bytes::pack(Pixel {
        r: table::look(table, 0, v % 256, a),
        g: table::look(table, 0, v / 256 % 256, a),
        b: table::look(table, 0, v / 65536 % 256, a),
        a: alpha,
    })
}

// The first `count` pixels of a row, in place.
pub fn convert_row(to: Space, row: &mut [u8], count: usize, table: &[u8])
    requires { Pairs to table.now × (count ≤ longest_side) × (4 * count ≤ length row.old) }
    ensures { Painted (λ j. remapped (space_maps to) (pixel_at row.old (4 * j))) 0 0 count row.old row.new }
{
    for x in 0..count {
        let i = 4 * x;
        let v = bytes::word(&row[..], i);
        bytes::put(row, i, convert_word(to, table, v));
    }
}
