// The orders, the target and the numbers of a convolution (RULES 5.14).
ghost use Rattle.std.specs.Prelude.{◌≡◌, ◌+◌, ◌≤◌};
ghost use Rattle.filter.specs.Convolutions.{order?, orders?, target?, convolution?, values_in, convolution_count, divisor_place};

use super::Sheet;
use pixel::Convolution;

fn order_allowed(n: usize) -> bool
    ensures { result ≡ order? n }
{
    0 < n && n <= Sheet::ORDER
}

pub fn orders_allowed(convolution: Convolution) -> bool
    ensures { result ≡ orders? convolution }
{
    order_allowed(convolution.columns) && order_allowed(convolution.rows)
}

fn target_inside(convolution: Convolution) -> bool
    ensures { result ≡ target? convolution }
{
    convolution.column < convolution.columns && convolution.row < convolution.rows
}

// 17.
pub fn is_allowed(convolution: Convolution) -> bool
    ensures { result ≡ convolution? convolution }
{
    orders_allowed(convolution) && target_inside(convolution)
}

// Orders that a record claims may be any: those that 17 refuses have no values, so that no product leaves a word.
pub fn values_in(convolution: Convolution) -> usize
    ensures { (result ≡ values_in convolution) × (result ≤ 25) }
{
    if orders_allowed(convolution) {
        return convolution.columns * convolution.rows;
    }
    0
}

// How many numbers a convolution has: the kernel's values, the divisor if one is given, and the bias.
pub fn convolution_count(convolution: Convolution) -> usize
    ensures { result ≡ convolution_count convolution }
{
    let values = values_in(convolution);
    if convolution.divided {
        return values + 2;
    }
    values + 1
}

// Which of them is the divisor; none where none is given.
pub fn divisor_place(convolution: Convolution) -> Option<usize>
    ensures { result ≡ divisor_place convolution }
{
    if convolution.divided {
        return Some(values_in(convolution));
    }
    None
}
