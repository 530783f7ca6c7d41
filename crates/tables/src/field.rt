// Numbers in the fields of a table's line.
ghost use Rattle.std.specs.Prelude.{◌≡◌, ◌+◌, ◌≤◌, ◌<◌, length};
ghost use Rattle.tables.specs.Hex.{digit_of, hex_of};

// What a hex digit stands for: a decimal digit its lower half, a letter nine more than that.
fn digit(x: u8) -> u64
    ensures { (result ≡ digit_of x) × (result < 16) }
{
    if x < 97 {
        return (x % 16) as u64;
    }
    ((x % 16 + 9) % 16) as u64
}

// The number whose hex digits are the `count` bytes from `at` on.
pub fn hex(line: &[u8], at: usize, count: usize) -> u64
    requires { (at + count ≤ length line.now) × (count ≤ 16) }
    ensures { result ≡ hex_of line.now at count }
{
    let mut value: u64 = 0;
    for x in &line[at..at + count] {
        value = value * 16 + digit(*x);
    }
    value
}
