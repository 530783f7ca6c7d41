// Working spaces: a pixel brought from one to the other.
ghost use Rattle.std.specs.Prelude.{◌≡◌, get_or};
ghost use Rattle.pixel.specs.Space.{table_of};
ghost use Rattle.pixel.specs.Convert.{differ?, pair_of, converted};

use super::alpha::premultiply;
use super::to_linear::linear;
use super::to_srgb::srgb;
use super::{Pixel, Space};

// A colour that is not premultiplied, brought to a space from the other one.
fn entry(to: Space, c: u8) -> u8
    ensures { result ≡ get_or (table_of to) c 0 }
{
    match to {
        Space::Linear => linear(c),
        Space::Srgb => srgb(c),
    }
}

// A premultiplied colour c at the alpha a, brought to a space from the other one; 0 where c is above a.
pub fn convert_pair(to: Space, c: u8, a: u8) -> u8
    ensures { result ≡ pair_of to c a }
{
    if c == 0 {
        return 0;
    }
    if a < c {
        return 0;
    }
    let u = (255 * (c as u32) + (a as u32) / 2) / (a as u32);
    premultiply(entry(to, u as u8), a)
}

// A pixel brought from one space to another.
pub fn convert(from: Space, to: Space, p: Pixel) -> Pixel
    ensures { result ≡ converted from to p }
{
    if from != to {
        return Pixel {
            r: convert_pair(to, p.r, p.a),
            g: convert_pair(to, p.g, p.a),
            b: convert_pair(to, p.b, p.a),
            a: p.a,
        };
    }
    p
}
