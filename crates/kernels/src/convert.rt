// Rows brought to a working space, and the table that they look into.
ghost use Rattle.std.specs.Prelude.{◌≡◌, ◌*◌, ◌≤◌, length};
ghost use Rattle.pixel.specs.Bytes.{pixel_at, Painted};
ghost use Rattle.pixel.specs.Remap.{remapped};
ghost use Rattle.pixel.specs.Space.{space_maps};
ghost use Rattle.kernel_remap.specs.Pairs.{Pairs};
ghost use Rattle.window.specs.Limits.{longest_side};
ghost use Rattle.kernels.specs.PlainNumbers.{space_to};

use pixel::Space;

fn space_to(linear: bool) -> Space
    ensures { result ≡ space_to linear }
{
    if linear { Space::Linear } else { Space::Srgb }
}

#[unsafe(no_mangle)]
pub extern "C" fn twillgoose_kernel_prepare_convert(linear: bool, table: &mut [u8])
    requires { length table.old ≡ 65536 }
    ensures { Pairs (space_to linear) table.new }
{
    kernel_remap::prepare(space_to(linear), table);
}

#[unsafe(no_mangle)]
pub extern "C" fn twillgoose_kernel_convert_row(
    linear: bool,
    row: &mut [u8],
    n: usize,
    table: &[u8],
)
    requires { Pairs (space_to linear) table.now × (n ≤ longest_side) × (4 * n ≤ length row.old) }
    ensures { Painted (λ j. remapped (space_maps (space_to linear)) (pixel_at row.old (4 * j))) 0 0 n row.old row.new }
{
    kernel_remap::convert_row(space_to(linear), row, n, table);
}
