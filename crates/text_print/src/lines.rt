// Rows, and the two answers.
ghost use Rattle.std.specs.Prelude.{◌≡◌, ◌+◌, ◌*◌, ◌≤◌, ◌∷◌, length};
ghost use Rattle.pixel.specs.declared.Space.TheVariants.{Srgb};
ghost use Rattle.pixel.specs.Bytes.{pixel_at};
ghost use Rattle.pixel.specs.Convert.{converted};
ghost use Rattle.filter.specs.Bytes.{size, read};
ghost use Rattle.text_print.specs.Digits.{decimal, hex_pixel};
ghost use Rattle.text_print.specs.Output.{line, row_fields, row_lines, in_srgb, ok_text, refused_text};
ghost use Rattle.text_print.specs.Code.{Put, row_from};

use super::digits::{put_byte, put_decimal, put_pixel, put_word};
use pixel::convert::convert;
use pixel::{Pixel, Space};

// A tab, and in sRGB the pixel whose bytes start at i.
fn put_field(out: &mut [u8], at: usize, layer: &[u8], space: Space, i: usize) -> usize
    requires { (at + 9 ≤ length out.old) × (i + 4 ≤ length layer.now) }
    ensures { Put (9 ∷ hex_pixel (converted space Srgb (pixel_at layer.now i))) at out.old out.new result }
{
    let p = Pixel {
        r: layer[i],
        g: layer[i + 1],
        b: layer[i + 2],
        a: layer[i + 3],
    };
    let end = put_byte(out, at, b'\t');
    put_pixel(out, end, convert(space, Space::Srgb, p))
}

// The line of w pixels whose bytes start at from.
fn put_row(out: &mut [u8], at: usize, w: usize, layer: &[u8], space: Space, from: usize) -> usize
    requires { (at + 9 * w + 4 ≤ length out.old) × (from + 4 * w ≤ length layer.now) }
    ensures { Put (line (row_fields w (row_from space layer.now from))) at out.old out.new result }
{
    let mut end = put_word(out, at, b"row");
    for x in 0..w {
        end = put_field(out, end, layer, space, from + 4 * x);
    }
    put_byte(out, end, b'\n')
}

// The lines of a picture that is kept in a space.
pub fn put_rows(out: &mut [u8], at: usize, w: usize, h: usize, layer: &[u8], space: Space) -> usize
    requires layer_len { length layer.now ≡ size w h }
    requires layer_in_bounds { at + length (row_lines w h (in_srgb space (read w h layer.now 0))) ≤ length out.old }
    ensures { Put (row_lines w h (in_srgb space (read w h layer.now 0))) at out.old out.new result }
{
    let mut end = at;
    for y in 0..h {
        end = put_row(out, end, w, layer, space, 4 * (y * w));
    }
    end
}

// What is printed for an accepted sheet whose last layer is kept in a space.
pub fn put_ok(out: &mut [u8], at: usize, w: usize, h: usize, layer: &[u8], space: Space) -> usize
    requires layer_len { length layer.now ≡ size w h }
    requires layer_in_bounds { at + length (ok_text w h (in_srgb space (read w h layer.now 0))) ≤ length out.old }
    ensures { Put (ok_text w h (in_srgb space (read w h layer.now 0))) at out.old out.new result }
{
    let end = put_word(out, at, b"ok");
    let rows = put_byte(out, end, b'\n');
    put_rows(out, rows, w, h, layer, space)
}

// A tab, and a number.
fn put_number(out: &mut [u8], at: usize, n: usize) -> usize
    requires { at + 1 + length (decimal n) ≤ length out.old }
    ensures { Put (9 ∷ decimal n) at out.old out.new result }
{
    let tab = put_byte(out, at, b'\t');
    put_decimal(out, tab, n)
}

// What is printed for a refusal.
pub fn put_refused(out: &mut [u8], at: usize, number: usize, place: usize) -> usize
    requires { at + length (refused_text number place) ≤ length out.old }
    ensures { Put (refused_text number place) at out.old out.new result }
{
    let word = put_word(out, at, b"refused");
    let first = put_number(out, word, number);
    let second = put_number(out, first, place);
    put_byte(out, second, b'\n')
}
