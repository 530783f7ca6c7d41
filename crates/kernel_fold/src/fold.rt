// Folds of bytes that lie in one buffer: the inner loops.
ghost use Rattle.std.specs.Prelude.{◌≡◌, ◌+◌, ◌-◌, ◌≤◌, ◌<◌, All, length};
ghost use Rattle.window.specs.Store.{Filled};
ghost use Rattle.kernel_fold.specs.Operation.{operation, together};
ghost use Rattle.kernel_fold.specs.Ranges.{Foldable};

use super::Extreme;

// The choice is the same in every turn of a loop, so that the compiler makes two loops of it.
pub fn extreme_byte(op: Extreme, x: u8, y: u8) -> u8
    ensures { result ≡ operation op x y }
{
    match op {
        Extreme::Least => x.min(y),
        Extreme::Largest => x.max(y),
    }
}

// The extreme of the bytes that stand i after the places.
fn extreme_after<const N: usize>(
    op: Extreme,
    buf: &[u8],
    first: usize,
    others: [usize; N],
    i: usize,
) -> u8
    requires { (first + i < length buf.now) × All (λ w. w + i < length buf.now) others }
    ensures { result ≡ together (operation op) buf.now first others.entry i }
{
    let mut extreme = buf[first + i];
    for other in others {
        extreme = extreme_byte(op, extreme, buf[other + i]);
    }
    extreme
}

// Stores at the m bytes from `to` on the extreme of N + 1 bytes each: those from `first` on and from the other places on.
pub fn fold_bytes<const N: usize>(
    op: Extreme,
    buf: &mut [u8],
    first: usize,
    others: [usize; N],
    to: usize,
    m: usize,
)
    requires { Foldable first to m buf.old × All (λ w. Foldable w to m buf.old) others × (to + m ≤ length buf.old) }
    ensures { Filled (λ j. together (operation op) buf.old first others.entry (j - to)) to (to + m) buf.old buf.new }
{
    for i in 0..m {
        buf[to + i] = extreme_after(op, &buf[..], first, others, i);
    }
}
