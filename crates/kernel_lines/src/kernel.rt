ghost use Rattle.kernel_lines.specs.Convolved.{Convolves};

use number::Fixed;
use pixel::Convolution;

// A convolution that the checks let pass, with its step's values.
#[derive(Clone, Copy)]
pub struct Kernel {
    pub convolution: Convolution,
    pub values: [Fixed; 64],
    pub ghost convolves: { Convolves convolution values },
}

impl Kernel {
    ghost use Rattle.std.specs.Prelude.{◌≡◌, ◌≤◌, ◌<◌};
    ghost use Rattle.number.specs.Number.{value};
    ghost use Rattle.pixel.specs.Coefficient.{Allowed};
    ghost use Rattle.pixel.specs.Convolve.{sum, cells, divisor_of, bias_of};
    ghost use Rattle.kernel_lines.specs.Convolved.{value_at};

    // How many values the kernel has: they come first, row by row.
    pub fn cells(&self) -> usize
        ensures { (result ≡ cells self.now.convolution) × (0 < result) × (result ≤ 25) }
    {
        self.convolution.columns * self.convolution.rows
    }

    // The kernel's values added up, what is above zero and what is below it apart.
    fn total(&self) -> Fixed
        ensures is_sum { value result ≡ sum (cells self.now.convolution) (λ i. value (value_at self.now.values i)) }
        ensures small { (result.above ≤ 419430400) × (result.below ≤ 419430400) }
    {
        let mut above: u64 = 0;
        let mut below: u64 = 0;
        for v in &self.values[..self.cells()] {
            above += v.above;
            below += v.below;
        }
        Fixed { above, below }
    }

    // The divisor: given, or the kernel's sum, or 1.
    pub fn divisor(&self) -> Fixed
        ensures is_divisor { value result ≡ divisor_of self.now.convolution (value_at self.now.values) }
        ensures small { (result.above ≤ 419430400) × (result.below ≤ 419430400) }
    {
        if self.convolution.divided {
            return self.values[self.cells()];
        }
        let total = self.total();
        if total.above == total.below {
            return Fixed {
                above: 65536,
                below: 0,
            };
        }
        total
    }

    // The bias, behind the kernel's values and the divisor.
    pub fn bias(&self) -> Fixed
        ensures { (value result ≡ bias_of self.now.convolution (value_at self.now.values)) × Allowed result }
    {
        let n = self.cells();
        if self.convolution.divided {
            return self.values[n + 1];
        }
        self.values[n]
    }
}
