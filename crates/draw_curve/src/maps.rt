// The maps of a curve's channels, from its transfers and values.
ghost use Rattle.std.specs.Prelude.{◌≡◌, true, length};
ghost use Rattle.filter.specs.Kinds.{curve_maps};
ghost use Rattle.filter.specs.Curves.{transfers?};
ghost use Rattle.filter.specs.Signature.{curve_numbers};
ghost use Rattle.filter.specs.Accepted.{Ranged};
ghost use Rattle.draw_curve.specs.Curve.{HoldsMaps};

use filter::Sheet;
use filter::kinds::curve_numbers;
use kernel_curve::fill_map;
use number::Fixed;
use pixel::Transfers;

// R, G, B and A, each with its own numbers.
pub fn fill_maps(transfers: Transfers, values: [Fixed; Sheet::NUMBERS], maps: &mut [u8])
    requires { (transfers? transfers ≡ true) × Ranged (curve_numbers transfers) values × (length maps.old ≡ 1024) }
    ensures { HoldsMaps (curve_maps transfers values) maps.new }
{
    let numbers = curve_numbers(transfers);
    let Transfers { r, g, b, a } = transfers;
    fill_map(r, values, 0, maps, 0);
    fill_map(g, values, numbers.first.end, maps, 256);
    fill_map(b, values, numbers.second.end, maps, 512);
    fill_map(a, values, numbers.third.end, maps, 768);
}
