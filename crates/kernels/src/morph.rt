// Least and largest of a window of lines.
ghost use Rattle.std.specs.Prelude.{◌≡◌};
ghost use Rattle.kernel_morph.specs.Extremes.{extreme_at};
ghost use Rattle.kernel_morph.specs.PingPong.{Windowed, PingPong};
ghost use Rattle.kernels.specs.PlainNumbers.{extreme_of};

use kernel_fold::Extreme;

fn extreme_of(largest: bool) -> Extreme
    ensures { result ≡ extreme_of largest }
{
    if largest {
        Extreme::Largest
    } else {
        Extreme::Least
    }
}

#[unsafe(no_mangle)]
pub extern "C" fn twillgoose_kernel_extreme_lines(
    largest: bool,
    buf: &mut [u8],
    a: usize,
    b: usize,
    n: usize,
    count: usize,
    back: usize,
    ahead: usize,
) -> usize
    requires { Windowed a b n count back ahead buf.old }
    ensures { PingPong (extreme_at (extreme_of largest) back ahead buf.old a n count) a b n count result buf.old buf.new }
{
    kernel_morph::extreme_lines(extreme_of(largest), buf, a, b, n, count, back, ahead)
}
