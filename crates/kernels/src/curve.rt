// Rows by four maps of bytes, one for each channel, and the tables that they look into. Any maps stand for a component transfer: the work is
// the same.
ghost use Rattle.std.specs.Prelude.{◌≡◌, ◌*◌, length, []};
ghost use Rattle.pixel.specs.Bytes.{Painted};
ghost use Rattle.pixel.specs.declared.Space.TheVariants.{Srgb};
ghost use Rattle.kernel_remap.specs.Remaps.{Remaps, looked_up_at};

use pixel::Space;

#[unsafe(no_mangle)]
pub extern "C" fn twillgoose_kernel_prepare_curve(maps: &[u8], tables: &mut [u8])
    requires { (length maps.now ≡ 1024) × (length tables.old ≡ 196608) }
    ensures { Remaps Srgb [] maps.now tables.new }
{
    let none = &maps[..0];
    kernel_remap::remap::prepare_maps(Space::Srgb, none, maps, tables);
}

#[unsafe(no_mangle)]
pub extern "C" fn twillgoose_kernel_curve(
    maps: &[u8],
    tables: &[u8],
    src: &[u8],
    dst: &mut [u8],
    n: usize,
)
    requires { (length maps.now ≡ 1024) × (length tables.now ≡ 196608) × (length src.now ≡ 4 * n) × (length dst.old ≡ 4 * n) }
    ensures { Painted (looked_up_at tables.now maps.now src.now) 0 0 n dst.old dst.new }
{
    kernel_remap::remap::remap_row(maps, tables, src, dst, n);
}
