// Two bytes as one number, so that the compiler makes one load or one store of them.
ghost use Rattle.std.specs.Prelude.{◌≡◌, ◌+◌, ◌*◌, ◌/◌, ◌%◌, ◌≤◌, ◌<◌, length, get_or, set};
ghost use Rattle.kernel_composite.specs.BytePairs.{Paired};

// The two bytes that start at 2·j.
pub fn pair(s: &[u8], j: usize) -> u16
    requires { 2 * j + 2 ≤ length s.now }
    ensures { Paired (get_or s.now (2 * j) 0) (get_or s.now (2 * j + 1) 0) result }
{
    let i = 2 * j;
    (s[i] as u16) + (s[i + 1] as u16) * 256
}

// Stores the two bytes v at 2·j.
pub fn put_pair(d: &mut [u8], j: usize, v: u16)
    requires { 2 * j + 2 ≤ length d.old }
    ensures { d.new ≡ set (set d.old (2 * j) (v % 256)) (2 * j + 1) (v / 256) }
{
    let i = 2 * j;
    d[i] = (v % 256) as u8;
    d[i + 1] = (v / 256) as u8;
}
