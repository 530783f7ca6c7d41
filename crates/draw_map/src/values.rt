// A step's values as a kernel takes them.
ghost use Rattle.std.specs.Prelude.{◌≡◌, ◌≤◌};
ghost use Rattle.pixel.specs.Coefficient.{AllowedMatrix};
ghost use Rattle.pixel.specs.Matrix.{saturation};
ghost use Rattle.filter.specs.Kinds.{value_at, matrix_row_of, matrix_of};

use filter::Sheet;
use number::Fixed;
use pixel::color_matrix::saturation_matrix;
use pixel::{Matrix, MatrixRow};

// Five coefficients from value i on.
fn matrix_row_of(values: [Fixed; Sheet::NUMBERS], i: usize) -> MatrixRow
    requires { i ≤ 15 }
    ensures { result ≡ matrix_row_of values i }
{
    MatrixRow {
        r: values[i],
        g: values[i + 1],
        b: values[i + 2],
        a: values[i + 3],
        one: values[i + 4],
    }
}

// "20, four rows of five."
pub fn matrix_of(values: [Fixed; Sheet::NUMBERS]) -> Matrix
    ensures { result ≡ matrix_of values }
{
    Matrix {
        r: matrix_row_of(values, 0),
        g: matrix_row_of(values, 5),
        b: matrix_row_of(values, 10),
        a: matrix_row_of(values, 15),
    }
}

// The matrix of saturate.
pub fn saturate_of(values: [Fixed; Sheet::NUMBERS]) -> Matrix
    requires { (value_at values 0).above ≤ 65536 }
    ensures { (result ≡ saturation (value_at values 0).above) × AllowedMatrix result }
{
    saturation_matrix(values[0].above)
}
