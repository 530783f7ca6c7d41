// Words, numbers and pixels.
ghost use Rattle.std.specs.Prelude.{◌≡◌, [], ◌∷◌, ◌+◌, ◌≤◌, ◌<◌, length};
ghost use Rattle.text_print.specs.Digits.{digit as Digits·digit, decimal, hex_byte, hex_pixel};
ghost use Rattle.text_print.specs.Code.{Put};

use pixel::Pixel;

pub fn put_byte(out: &mut [u8], at: usize, x: u8) -> usize
    requires { at + 1 ≤ length out.old }
    ensures { Put (x ∷ []) at out.old out.new result }
{
    out[at] = x;
    at + 1
}

pub fn put_word(out: &mut [u8], at: usize, word: &[u8]) -> usize
    requires { at + length word.now ≤ length out.old }
    ensures { Put word.now at out.old out.new result }
{
    let end = at + word.len();
    for (i, x) in out[at..end].iter_mut().enumerate() {
        *x = word[i];
    }
    end
}

fn digit(d: u8) -> u8
    requires { d < 16 }
    ensures { result ≡ Digits·digit d }
{
    if d < 10 { b'0' + d } else { b'a' - 10 + d }
}

fn put_digit(out: &mut [u8], at: usize, d: u8) -> usize
    requires { (at + 1 ≤ length out.old) × (d < 16) }
    ensures { Put (Digits·digit d ∷ []) at out.old out.new result }
{
    put_byte(out, at, digit(d))
}

// The decimal digits of a number, the last one after those of its tenth.
pub fn put_decimal(out: &mut [u8], at: usize, n: usize) -> usize
    requires { at + length (decimal n) ≤ length out.old }
    ensures { Put (decimal n) at out.old out.new result }
{
    if n < 10 {
        return put_digit(out, at, n as u8);
    }
    let end = put_decimal(out, at, n / 10);
    put_digit(out, end, (n % 10) as u8)
}

fn put_hex(out: &mut [u8], at: usize, x: u8) -> usize
    requires { at + 2 ≤ length out.old }
    ensures { Put (hex_byte x) at out.old out.new result }
{
    let second = put_digit(out, at, x / 16);
    put_digit(out, second, x % 16)
}

// The eight hex digits of a pixel.
pub fn put_pixel(out: &mut [u8], at: usize, p: Pixel) -> usize
    requires { at + 8 ≤ length out.old }
    ensures { Put (hex_pixel p) at out.old out.new result }
{
    let green = put_hex(out, at, p.r);
    let blue = put_hex(out, green, p.g);
    let alpha = put_hex(out, blue, p.b);
    put_hex(out, alpha, p.a)
}
