ghost use Rattle.std.specs.Prelude.{◌≡◌, ℕ, ◌+◌, ◌-◌, ◌*◌, ◌≤◌, ◌<◌, length, get_or};
ghost use Rattle.window.specs.Store.{Filled, byte_at};
ghost use Rattle.kernel_blur.specs.StridedRows.{Rows};

// The four bytes at i of src go to those at j of dst; a function of its own, so that they are moved as one word.
fn copy_pixel(src: &[u8], i: usize, dst: &mut [u8], j: usize)
    requires { (i + 4 ≤ length src.now) × (j + 4 ≤ length dst.old) }
    ensures { Filled (λ t. get_or src.now (i + (t - j)) 0) j (j + 4) dst.old dst.new }
{
    let r = src[i];
    let g = src[i + 1];
    let b = src[i + 2];
    let a = src[i + 3];
    dst[j] = r;
    dst[j + 1] = g;
    dst[j + 2] = b;
    dst[j + 3] = a;
}

// The same for n bytes.
fn copy_row(src: &[u8], i: usize, dst: &mut [u8], j: usize, n: usize)
    requires { (i + n ≤ length src.now) × (j + n ≤ length dst.old) }
    ensures { Filled (λ t. get_or src.now (i + (t - j)) 0) j (j + n) dst.old dst.new }
{
    if n == 4 {
        copy_pixel(src, i, dst, j);
    } else {
        for (k, x) in dst[j..j + n].iter_mut().enumerate() {
            *x = src[i + k];
        }
    }
}

// Rows of n bytes that lie stride bytes apart from `from` on go to places that lie step bytes apart from `to` on.
pub fn copy_rows(
    src: &[u8],
    from: usize,
    stride: usize,
    dst: &mut [u8],
    to: usize,
    step: usize,
    n: usize,
    rows: usize,
)
    requires { (n ≤ step) × ((v : ℕ) → v < rows → (from + v * stride + n ≤ length src.now) × (to + v * step + n ≤ length dst.old)) }
    ensures { Rows (λ v i. byte_at src.now from stride v i) to step n rows dst.old dst.new }
{
    for v in 0..rows {
        copy_row(src, from + v * stride, dst, to + v * step, n);
    }
}

// Pixel x of a row goes to line x of 32 bytes, where line 0 has its four bytes at `at`: eight rows make the lines of a pass along rows.
pub fn deal_row(row: &[u8], dst: &mut [u8], at: usize, w: usize)
    requires { (4 * w ≤ length row.now) × (at + 32 * w ≤ length dst.old + 28) }
    ensures { Rows (λ x c. byte_at row.now 0 4 x c) at 32 4 w dst.old dst.new }
{
    copy_rows(row, 0, 4, dst, at, 32, 4, w);
}

// And back.
pub fn gather(src: &[u8], at: usize, row: &mut [u8], w: usize)
    requires { (at + 32 * w ≤ length src.now + 28) × (4 * w ≤ length row.old) }
    ensures { Rows (λ x c. byte_at src.now at 32 x c) 0 4 4 w row.old row.new }
{
    copy_rows(src, at, 32, row, 0, 4, 4, w);
}
